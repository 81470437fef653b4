//! Packets that pass loaded code, before the server and behind it.
ghost use Rattle.std.specs.Prelude.{◌≡◌, ◌≤◌, ℕ, List, suc, nat_lt, drop, length, true, false, if◌then◌else◌, Some, None, Ok, IfOk, IsSome, OnErr, OnOk};
ghost use Rattle.packet_fields.specs.Shape.{shape_of};
ghost use Rattle.packet_fields.specs.Sizes.{largest_packet};
ghost use Rattle.flat_ir.specs.Blocks.{nothing};
ghost use Rattle.flat_ir.specs.Registers.{packet_of};
ghost use Rattle.split_model.specs.declared.layout.Crossing.{Crossing};
ghost use Rattle.transfer_header.specs.Frames.{IsFrame, IsFrameOf, IsReadBack};
ghost use Rattle.transfer_header.specs.Registers.{value_in};
ghost use Rattle.switch_ir.specs.Code.{code_of};
ghost use Rattle.switch_ir.specs.Meaning.{down_given};
ghost use Rattle.switch_ir.specs.Port.{OfItsParts};
ghost use Rattle.switch_ir.specs.UnderWay.{PassState};
ghost use Rattle.switch_machine.specs.Kept.{KeepsTables};
ghost use Rattle.switch_machine.specs.Sides.{entry_for, is_going, side_of, staging, with_last, IsOf};
ghost use Rattle.switch_machine.specs.Staging.{CanTake, EntersDown, Takes};
ghost use Rattle.switch_machine.specs.UnderWay.{passes_on, Enters, HasGoneOnAt, IsGiven, Puts, Stages, StaysLoaded, Steps};
ghost use Rattle.switch_machine.specs.ActivePasses.{with_pass};
ghost use Rattle.switch_machine.specs.Ready.{AreReady};
ghost use Rattle.switch_machine.specs.LoadedPasses.{IsPassOf, StaysMade};
ghost use Rattle.switch_machine.specs.declared.sides.Event.TheVariants as event;
ghost use Rattle.switch_machine.specs.declared.sides.Side.TheVariants.{Before, Behind};

use crate::loaded::Loaded;
use crate::loaded_pass::LoadedPass;
use crate::passes::{are_few, run_steps};
use crate::ready::ReadyStages;
use crate::run::Nothing;
use crate::sides::{Event, Side, is_going};
use crate::tables::SwitchTables;
use flat_ir::Arrival;
use gal_io::NoMemory;
use packet_fields::Shape;
use std::alloc::Global;
use switch_ir::{Journal, SwitchCode, UpEnd};
use transfer_header::{Head, unpack_down};

impl Loaded {
    /// A call over a packet that doesn't fail, with its entry. Without memory all is as before.
    pub fn take(
        &mut self,
        alloc: Global,
        tables: &SwitchTables,
        journal: &mut Journal,
        event: &Event<'_>,
    ) -> Result<UpEnd, NoMemory>
        requires safe { KeepsTables (code_of self.old.code) tables.now }
        requires can { CanTake event.now (code_of self.old.code) (passes_on (side_of event.now) self.old) }
        ensures stays { StaysLoaded (side_of event.now) self.old self.new }
        ensures takes { IfOk result (λ end. Takes event.now (code_of self.old.code) tables.now end
            (passes_on (side_of event.now) self.old) (passes_on (side_of event.now) self.new)) }
        ensures side { IfOk result (IsOf (side_of event.now)) }
        ensures noted { IfOk result (λ end. journal.new ≡ with_last (entry_for event.now (Ok end)) journal.old) }
        ensures kept { OnErr result (passes_on (side_of event.now) self.new ≡ passes_on (side_of event.now) self.old) }
        ensures err { OnErr result (journal.new ≡ journal.old) }
    {
        match *event {
            Event::Up(number, port, packet, whole) => {
                let end = self.up(alloc, tables, number, port, packet, whole)?;
                self.close(journal, event, number, end)
            }
            Event::Down(frame, whole) => {
                let made = self.down(alloc, tables, frame, whole)?;
                let (number, end) = made;
                self.close(journal, event, number, end)
            }
            Event::Stage(side, number) => self.stage(alloc, tables, journal, side, number),
        }
    }

    // Notes a call by which a pass began, with its end. Without memory for that, the pass isn't under way.
    fn close(
        &mut self,
        journal: &mut Journal,
        event: &Event<'_>,
        number: u32,
        end: UpEnd,
    ) -> Result<UpEnd, NoMemory>
        requires { IsOf (side_of event.now) end }
        ensures stays { StaysLoaded (side_of event.now) self.old self.new }
        ensures end { IfOk result (λ same. same ≡ end) }
        ensures kept { OnOk result (passes_on (side_of event.now) self.new ≡ passes_on (side_of event.now) self.old) }
        ensures noted { OnOk result (journal.new ≡ with_last (entry_for event.now (Ok end)) journal.old) }
        ensures undone { OnErr result (passes_on (side_of event.now) self.new ≡ (if is_going end
            then with_pass number None (passes_on (side_of event.now) self.old)
            else passes_on (side_of event.now) self.old)) }
        ensures err { OnErr result (journal.new ≡ journal.old) }
    {
        let begun = is_going(&end);
        match event.note(journal, end) {
            Ok(same) => Ok(same),
            Err(failed) => {
                if begun {
                    self.remove(event.side(), number);
                }
                Err(failed)
            }
        }
    }

    // The pass over the packet of this number at a side takes a stage.
    fn stage(
        &mut self,
        alloc: Global,
        tables: &SwitchTables,
        journal: &mut Journal,
        side: Side,
        number: u32,
    ) -> Result<UpEnd, NoMemory>
        requires safe { KeepsTables (code_of self.old.code) tables.now }
        requires has_pass { IsSome (passes_on side self.old number) }
        ensures stays { StaysLoaded side self.old self.new }
        ensures stages { IfOk result (λ end. Stages side (code_of self.old.code) tables.now number end
            (passes_on side self.old) (passes_on side self.new)) }
        ensures side { IfOk result (IsOf side) }
        ensures noted { IfOk result (λ end. journal.new
            ≡ with_last (entry_for (event.Stage side number) (Ok end)) journal.old) }
        ensures kept { OnErr result (passes_on side self.new ≡ passes_on side self.old) }
        ensures err { OnErr result (journal.new ≡ journal.old) }
    {
        let end = self.next(alloc, side, tables, number)?;
        if is_going(&end) {
            side.note_stage(journal, number)?;
            self.go_on(side, tables, number);
            return Ok(UpEnd::Going);
        }
        let same = Event::Stage(side, number).note(journal, end)?;
        self.remove(side, number);
        Ok(same)
    }

    // A packet arrives, and its pass begins, or goes to its end at once where it is to be `whole`.
    fn up(
        &mut self,
        alloc: Global,
        tables: &SwitchTables,
        number: u32,
        port: u8,
        packet: &[u8],
        whole: bool,
    ) -> Result<UpEnd, NoMemory>
        requires size { length packet.now ≤ largest_packet }
        requires safe { KeepsTables (code_of self.old.code) tables.now }
        ensures stays { StaysLoaded Before self.old self.new }
        ensures enters { IfOk result (λ end. Enters Before (code_of self.old.code) tables.now whole number
            (record { port = port; bytes = packet.now }) nothing end (passes_on Before self.old) (passes_on Before self.new)) }
        ensures err { OnErr result (passes_on Before self.new ≡ passes_on Before self.old) }
    {
        self.before.clear();
        let arrival = Arrival {
            port,
            bytes: packet,
            shape: Shape::of(packet),
        };
        let code = &self.code;
        self.before
            .begin(alloc, code, tables, number, &arrival, whole)
    }

    // A frame comes down, and the pass over its packet begins, or goes to its end at once where it is to be `whole`. This
    // tells the number of the packet, too.
    fn down(
        &mut self,
        alloc: Global,
        tables: &SwitchTables,
        frame: &[u8],
        whole: bool,
    ) -> Result<(u32, UpEnd), NoMemory>
        requires frame { IsFrame 2 self.old.code.down frame.now }
        requires safe { KeepsTables (code_of self.old.code) tables.now }
        ensures stays { StaysLoaded Behind self.old self.new }
        ensures number { IfOk result (λ made. OfItsParts (code_of self.old.code) frame.now (λ number packet values. made.0 ≡ number)) }
        ensures enters { IfOk result (λ made. EntersDown frame.now whole (code_of self.old.code) tables.now made.1
            (passes_on Behind self.old) (passes_on Behind self.new)) }
        ensures side { IfOk result (λ made. IsOf Behind made.1) }
        ensures err { OnErr result (passes_on Behind self.new ≡ passes_on Behind self.old) }
    {
        let code = &self.code;
        let head = self.behind.unpack(code, frame);
        let packet = &frame[head.packet_at..];
        let arrival = Arrival {
            port: head.port,
            bytes: packet,
            shape: Shape::of(packet),
        };
        self.behind.give(alloc, code, &self.given, &arrival);
        let number = head.number;
        let end = self
            .behind
            .begin(alloc, code, tables, number, &arrival, whole)?;
        Ok((number, end))
    }

    // What the next stage makes of the pass over the packet of this number at a side. The pass is under way as before.
    fn next(
        &mut self,
        alloc: Global,
        side: Side,
        tables: &SwitchTables,
        number: u32,
    ) -> Result<UpEnd, NoMemory>
        requires safe { KeepsTables (code_of self.old.code) tables.now }
        requires has_pass { IsSome (passes_on side self.old number) }
        ensures stays { StaysLoaded side self.old self.new }
        ensures passes { passes_on side self.new ≡ passes_on side self.old }
        ensures steps { (before : PassState) → passes_on side self.old number ≡ Some before
            → IfOk result (Steps side (code_of self.old.code) tables.now number before) }
    {
        match side {
            Side::Before => self.before.next(alloc, &self.code, tables, number),
            Side::Behind => self.behind.next(alloc, &self.code, tables, number),
        }
    }

    // The pass over the packet of this number at a side takes a stage that isn't its last. This takes no memory.
    fn go_on(&mut self, side: Side, tables: &SwitchTables, number: u32)
        requires safe { KeepsTables (code_of self.old.code) tables.now }
        requires has_pass { IsSome (passes_on side self.old number) }
        requires left { (before : PassState) → passes_on side self.old number ≡ Some before
            → nat_lt (suc before.stage) (staging side (code_of self.old.code)).code.highest ≡ true }
        ensures stays { StaysLoaded side self.old self.new }
        ensures goes_on { Puts number (HasGoneOnAt side number tables.now self.old) (passes_on side self.old) (passes_on side self.new) }
    {
        match side {
            Side::Before => self.before.go_on(tables, number),
            Side::Behind => self.behind.go_on(tables, number),
        }
    }

    // Ends the pass over the packet of this number at a side. This takes no memory.
    fn remove(&mut self, side: Side, number: u32)
        ensures stays { StaysLoaded side self.old self.new }
        ensures passes { passes_on side self.new ≡ with_pass number None (passes_on side self.old) }
    {
        match side {
            Side::Before => self.before.remove(number),
            Side::Behind => self.behind.remove(number),
        }
    }
}

impl LoadedPass {
    // Puts the numbers that are handed down in a frame into the registers of postprocessing, and no others.
    fn unpack(&mut self, code: &SwitchCode, frame: &[u8]) -> Head
        requires pass { IsPassOf (code_of code.now) self.old }
        requires side { self.old.side ≡ Behind }
        requires frame { IsFrame 2 code.now.down frame.now }
        ensures made { StaysMade self.old self.new }
        ensures active { self.new.active ≡ self.old.active }
        ensures parts { IsFrameOf 2 code.now.down result.number result.port (value_in self.new.registers)
            (drop result.packet_at frame.now) frame.now }
        ensures within { result.packet_at ≤ length frame.now }
        ensures read_back { (number port : ℕ) (values : Crossing → ℕ) (packet : List ℕ)
            → IsFrameOf 2 code.now.down number port values packet frame.now
            → IsReadBack code.now.down number port values packet frame.now self.new.registers result }
    {
        self.clear();
        let Ok(head) = unpack_down(&code.down, frame, &mut self.registers) else {
            unreachable!()
        };
        head
    }

    // Puts the consts and fields that postprocessing is given into their registers.
    fn give(&mut self, alloc: Global, code: &SwitchCode, given: &ReadyStages, arrival: &Arrival<'_>)
        requires size { length arrival.now.bytes.now ≤ largest_packet }
        requires shape { arrival.now.shape ≡ shape_of arrival.now.bytes.now }
        requires pass { IsPassOf (code_of code.now) self.old }
        requires side { self.old.side ≡ Behind }
        requires planned { self.old.registers.plan ≡ Some code.now.post.plan }
        requires given { AreReady self.old.numbering code.now.post.plan (code_of code.now).post.given 0 given.now }
        ensures made { StaysMade self.old self.new }
        ensures active { self.new.active ≡ self.old.active }
        ensures given { IsGiven (code_of code.now) self.new
            (down_given (code_of code.now) (value_in self.old.registers) (packet_of arrival.now)) }
    {
        let none = SwitchTables::none(alloc);
        are_few(&self.registers);
        run_steps(
            given.stage(0).steps(),
            &Nothing,
            &none,
            arrival,
            &mut self.registers,
        );
    }
}
