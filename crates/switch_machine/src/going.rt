//! How a pass is computed, whole or stage by stage.
ghost use Rattle.std.specs.Prelude.{◌≡◌, ◌≤◌, ◌<◌, ℕ, length, true, false, Some, None, IfOk, IsSome, OnErr, OnOk};
ghost use Rattle.packet_fields.specs.Shape.{shape_of};
ghost use Rattle.packet_fields.specs.Sizes.{largest_packet};
ghost use Rattle.flat_ir.specs.Blocks.{Reading};
ghost use Rattle.flat_ir.specs.Registers.{packet_of};
ghost use Rattle.transfer_header.specs.Registers.{content_of, ArePlaced};
ghost use Rattle.switch_ir.specs.Code.{code_of, Code};
ghost use Rattle.switch_ir.specs.Meaning.{pass_values};
ghost use Rattle.switch_ir.specs.Tables.{seen_tables};
ghost use Rattle.switch_ir.specs.UnderWay.{PassState};
ghost use Rattle.switch_machine.specs.declared.active_pass.ActivePass.{ActivePass as Active};
ghost use Rattle.switch_machine.specs.ActivePasses.{active_in, with_pass};
ghost use Rattle.switch_machine.specs.Keeping.{kept};
ghost use Rattle.switch_machine.specs.Kept.{KeepsTables};
ghost use Rattle.switch_machine.specs.Numbers.{reads_by, AreHeld};
ghost use Rattle.switch_machine.specs.Sides.{of_side, staging, EndsOn};
ghost use Rattle.switch_machine.specs.UnderWay.{leaves_on, numbers_at_last, passes_of, Entered, Enters, GoneOn};
ghost use Rattle.switch_machine.specs.UnderWay.{HasEnd, HasStagesLeft, IsAtLast, IsGiven, Puts, Steps};
ghost use Rattle.switch_machine.specs.LoadedPasses.{IsPassOf, StaysMade};

use crate::active_pass::{ActivePass, active_pass_of, copy_numbers, put_in};
use crate::live::leaves_work;
use crate::loaded_pass::LoadedPass;
use crate::passes::{are_few, run_pass, run_stage};
use crate::run::Run;
use crate::sides::Side;
use crate::tables::{SwitchTables, View};
use flat_ir::{Arrival, Out, leave};
use gal_io::NoMemory;
use std::alloc::Global;
use switch_ir::{SwitchCode, UpEnd};
use transfer_header::pack_up;

impl LoadedPass {
    /// Forgets all numbers. This takes no memory.
    pub fn clear(&mut self)
        ensures made { StaysMade self.old self.new }
        ensures active { self.new.active ≡ self.old.active }
        ensures contents { (n : ℕ) → content_of self.new.registers n ≡ 0 }
        ensures placed { ArePlaced self.new.registers }
    {
        self.registers.clear();
    }

    /// A pass begins over a packet, with what it is given in its registers. Where it has a stage above 0, and isn't to go
    /// on to its end at once, it is under way then, as that of this number.
    pub fn begin(
        &mut self,
        alloc: Global,
        code: &SwitchCode,
        tables: &SwitchTables,
        number: u32,
        arrival: &Arrival<'_>,
        whole: bool,
    ) -> Result<UpEnd, NoMemory>
        requires size { length arrival.now.bytes.now ≤ largest_packet }
        requires shape { arrival.now.shape ≡ shape_of arrival.now.bytes.now }
        requires pass { IsPassOf (code_of code.now) self.old }
        requires safe { KeepsTables (code_of code.now) tables.now }
        ensures made { StaysMade self.old self.new }
        ensures enters { (given : Reading) → IsGiven (code_of code.now) self.old given → IfOk result (λ end.
            Enters self.old.side (code_of code.now) tables.now whole number (packet_of arrival.now) given end
            (passes_of (code_of code.now) self.old) (passes_of (code_of code.now) self.new)) }
        ensures err { OnErr result (passes_of (code_of code.now) self.new ≡ passes_of (code_of code.now) self.old) }
    {
        if whole || self.stages.len() == 1 {
            self.run(tables, arrival);
            let leaves = self.leaves_work(code);
            return self.end(alloc, code, leaves, number, arrival);
        }
        self.enter(alloc, tables, number, arrival)?;
        Ok(UpEnd::Going)
    }

    // Computes all stages, over the tables as lookups see them.
    fn run(&mut self, tables: &SwitchTables, arrival: &Arrival<'_>)
        requires size { length arrival.now.bytes.now ≤ largest_packet }
        requires shape { arrival.now.shape ≡ shape_of arrival.now.bytes.now }
        ensures made { StaysMade self.old self.new }
        ensures active { self.new.active ≡ self.old.active }
        ensures values { (code : Code) (given : Reading) → IsPassOf code self.old → KeepsTables code tables.now
            → IsGiven code self.old given
            → AreHeld self.new.numbering self.new.registers
            (pass_values (staging self.old.side code).code given (seen_tables tables.now) (packet_of arrival.now))
            (kept (staging self.old.side code)) }
    {
        are_few(&self.registers);
        run_pass(
            &self.stages,
            &tables.as_seen(),
            arrival,
            &mut self.registers,
            &mut self.results,
        );
    }

    // Computes stage 0, over the tables as lookups see them, and keeps the pass as that of this number.
    fn enter(
        &mut self,
        alloc: Global,
        tables: &SwitchTables,
        number: u32,
        arrival: &Arrival<'_>,
    ) -> Result<(), NoMemory>
        requires size { length arrival.now.bytes.now ≤ largest_packet }
        requires shape { arrival.now.shape ≡ shape_of arrival.now.bytes.now }
        requires left { 1 < length self.old.stages }
        ensures made { StaysMade self.old self.new }
        ensures enters { (code : Code) → IsPassOf code self.old → KeepsTables code tables.now
            → OnOk result (Puts number (Entered code (packet_of arrival.now) tables.now self.old)
            (passes_of code self.old) (passes_of code self.new)) }
        ensures err { OnErr result (active_in self.new.active ≡ active_in self.old.active) }
    {
        are_few(&self.registers);
        run_stage(
            self.stages.stage(0),
            &tables.as_seen(),
            arrival,
            &mut self.registers,
            &mut self.results,
        );
        let active_pass = ActivePass::new(alloc, &self.registers, arrival, tables.bit())?;
        put_in(&mut self.active, number, active_pass)
    }

    // Whether the pass over the packet of this number has more than one stage left, and else has one.
    fn has_stages_left(&self, number: u32) -> bool
        requires { IsSome (active_in self.now.active number) }
        ensures left { result ≡ true → HasStagesLeft number self.now }
        ensures last { result ≡ false → IsAtLast number self.now }
    {
        let done = active_pass_of(&self.active, number).stage;
        let left = self.stages.len().saturating_sub(done);
        left > 2
    }

    /// The pass over the packet of this number takes a stage that isn't its last. This takes no memory.
    pub fn go_on(&mut self, tables: &SwitchTables, number: u32)
        requires has_pass { IsSome (active_in self.old.active number) }
        requires left { HasStagesLeft number self.old }
        ensures made { StaysMade self.old self.new }
        ensures goes_on { (code : Code) → IsPassOf code self.old → KeepsTables code tables.now
            → Puts number (GoneOn code number tables.now self.old) (passes_of code self.old) (passes_of code self.new) }
    {
        are_few(&self.registers);
        let Some(active_pass) = self.active.get_mut(&number) else {
            unreachable!()
        };
        active_pass.step(&self.stages, tables, &mut self.results);
    }

    // Computes the last stage of the pass over the packet of this number. The pass stays as it is.
    fn compute_last(&mut self, tables: &SwitchTables, number: u32)
        requires has_pass { IsSome (active_in self.old.active number) }
        requires last { IsAtLast number self.old }
        ensures made { StaysMade self.old self.new }
        ensures active { self.new.active ≡ self.old.active }
        ensures values { (code : Code) (f : Active) → IsPassOf code self.old → KeepsTables code tables.now
            → active_in self.old.active number ≡ Some f
            → AreHeld self.new.numbering self.new.registers (numbers_at_last code tables.now self.old f)
            (kept (staging self.old.side code)) }
    {
        are_few(&self.registers);
        let active_pass = active_pass_of(&self.active, number);
        copy_numbers(&active_pass.registers, &mut self.registers);
        let view = View {
            tables,
            bit: active_pass.bit,
        };
        let count = self.stages.len();
        prove!(active_pass.stage < count);
        run_stage(
            self.stages.stage(active_pass.stage + 1),
            &view,
            &active_pass.arrival(),
            &mut self.registers,
            &mut self.results,
        );
    }

    /// What the next stage makes of the pass over the packet of this number. The pass is under way as before.
    pub fn next(
        &mut self,
        alloc: Global,
        code: &SwitchCode,
        tables: &SwitchTables,
        number: u32,
    ) -> Result<UpEnd, NoMemory>
        requires pass { IsPassOf (code_of code.now) self.old }
        requires safe { KeepsTables (code_of code.now) tables.now }
        requires has_pass { IsSome (active_in self.old.active number) }
        ensures made { StaysMade self.old self.new }
        ensures active { self.new.active ≡ self.old.active }
        ensures steps { (before : PassState) → passes_of (code_of code.now) self.old number ≡ Some before
            → IfOk result (Steps self.old.side (code_of code.now) tables.now number before) }
    {
        if self.has_stages_left(number) {
            return Ok(UpEnd::Going);
        }
        self.compute_last(tables, number);
        let leaves = self.leaves_work(code);
        let active_pass = active_pass_of(&self.active, number);
        self.end(alloc, code, leaves, number, &active_pass.arrival())
    }

    /// Ends the pass over the packet of this number. This takes no memory.
    pub fn remove(&mut self, number: u32)
        ensures made { StaysMade self.old self.new }
        ensures passes { (code : Code) → passes_of code self.new ≡ with_pass number None (passes_of code self.old) }
    {
        let _ = self.active.remove(&number);
    }

    // Whether the pass leaves work to the server, by the numbers in its registers.
    fn leaves_work(&mut self, code: &SwitchCode) -> bool
        requires { IsPassOf (code_of code.now) self.old }
        ensures leaves { result ≡ leaves_on self.old.side (code_of code.now)
            (reads_by self.old.numbering (content_of self.old.registers)) }
        ensures made { StaysMade self.old self.new }
        ensures active { self.new.active ≡ self.old.active }
        ensures registers { self.new.registers ≡ self.old.registers }
    {
        let run = Run {
            numbering: &self.numbering,
            registers: &self.registers,
        };
        match self.side {
            Side::Before => leaves_work(&code.pre, &run, &mut self.marks),
            Side::Behind => false,
        }
    }

    // What becomes of a packet once its pass is computed.
    fn end(
        &self,
        alloc: Global,
        code: &SwitchCode,
        leaves: bool,
        number: u32,
        arrival: &Arrival<'_>,
    ) -> Result<UpEnd, NoMemory>
        requires size { length arrival.now.bytes.now ≤ largest_packet }
        requires shape { arrival.now.shape ≡ shape_of arrival.now.bytes.now }
        requires pass { IsPassOf (code_of code.now) self.now }
        requires leaves { leaves
            ≡ leaves_on self.now.side (code_of code.now) (reads_by self.now.numbering (content_of self.now.registers)) }
        ensures ends { (reads : Reading)
            → AreHeld self.now.numbering self.now.registers reads (kept (staging self.now.side (code_of code.now)))
            → IfOk result (HasEnd self.now.side (code_of code.now) number (packet_of arrival.now) false
            (EndsOn self.now.side (code_of code.now) reads number (packet_of arrival.now))) }
    {
        if leaves {
            let port = arrival.port;
            fits(port);
            let registers = &self.registers;
            let frame = pack_up(alloc, &code.up, number, port, registers, arrival.bytes)?;
            return Ok(UpEnd::Up(frame));
        }
        let run = Run {
            numbering: &self.numbering,
            registers: &self.registers,
        };
        let copy = arrival.bytes.to_vec(alloc)?;
        let out = out_of(code, self.side);
        Ok(UpEnd::Finished(leave(out, arrival, &run, copy)))
    }
}

// What decides on a packet at a side.
fn out_of(code: &SwitchCode, side: Side) -> &Out
    ensures { result.now ≡ of_side side code.now.pre.out code.now.post.out }
{
    match side {
        Side::Before => &code.pre.out,
        Side::Behind => &code.post.out,
    }
}

// A port is below 256.
fn fits(port: u8)
    ensures { port < 256 }
{}
