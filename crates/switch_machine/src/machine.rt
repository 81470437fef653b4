//! A switch in memory.
ghost use Rattle.std.specs.Prelude.{◌≡◌, ◌≤◌, ◌<◌, ◌-◌, ◌++◌, ◌∷◌, [], ℕ, false, max, None, Some};
ghost use Rattle.std.specs.Prelude.{length, OnOk, OnErr, IfOk, IsSome};
ghost use Rattle.gal_io.specs.Count.{IsCountedIf, count_after};
ghost use Rattle.packet_fields.specs.Sizes.{largest_packet};
ghost use Rattle.state_store.specs.declared.object.ObjectDecl.{ObjectDecl};
ghost use Rattle.writeback_table.specs.Pair.{visible_rows};
ghost use Rattle.switch_ir.specs.Code.{code_of, Code};
ghost use Rattle.switch_ir.specs.Emitted.{IsEmitted};
ghost use Rattle.switch_ir.specs.Journal.{entry_of};
ghost use Rattle.switch_ir.specs.Sound.{CanBeRun};
ghost use Rattle.switch_ir.specs.Tables.{pair_at, told_after, IsStart, Told};
ghost use Rattle.switch_ir.specs.UnderWay.{none_under_way};
ghost use Rattle.switch_ir.specs.Port.{has_failed, AreRowsOf, IsReplicatedIn};
ghost use Rattle.switch_ir.specs.Port.{Loads, MakesRoom, PassesUp, PassesDown, Commands, ShowsRows};
ghost use Rattle.switch_ir.specs.Port.{BeginsUp, StagesUp, BeginsDown, StagesDown};
ghost use Rattle.switch_ir.specs.Port.{IsLoaded, IsDownFrame, CanCommand, HasReplicated, HasRoomFor, WaitsForNone};
ghost use Rattle.switch_ir.specs.Port.{HasNoUpPass, HasUpPass, HasNoDownPassOf, HasDownPass};
ghost use Rattle.switch_ir.specs.declared.journal.Entry.TheVariants as entry;
ghost use Rattle.switch_machine.specs.declared.calls.CallKind.TheVariants as call;
ghost use Rattle.switch_machine.specs.Calls.{called, EndsAsPlanned, IsCountedAs, PassEndsAsPlanned};
ghost use Rattle.switch_machine.specs.Counts.{counted};
ghost use Rattle.switch_machine.specs.Kept.{safe_prop, AreSafe};
ghost use Rattle.switch_machine.specs.Loading.{code_in};
ghost use Rattle.switch_machine.specs.Machine.{fails_next, seen_of};
ghost use Rattle.switch_machine.specs.Ranges.{AreOrdered};
ghost use Rattle.switch_machine.specs.Sides.{entry_for, kind_of, side_of, IsOf};
ghost use Rattle.switch_machine.specs.Staging.{passes_at, with_call, with_entry, CanTake, Leaves, Takes};

use crate::calls::{CallKind, Calls, count, is_planned};
use crate::loaded::Loaded;
use crate::sides::{Event, Side, down_end};
use crate::tables::SwitchTables;
use gal_io::NoMemory;
use state_store::Rows;
use std::alloc::Global;
use switch_ir::{Call, DownEnd, Entry, Journal, PortError, SwitchCode, SwitchPort, UpEnd};
use writeback_table::Command;

/// A switch in memory. It tells its tables, and a call fails where that was planned, and in no other case.
#[derive(Drop)]
pub struct ModelSwitch {
    pub(crate) loaded: Option<Loaded>,
    pub(crate) tables: SwitchTables,
    pub(crate) journal: Journal,
    pub(crate) faults: u64,
    pub(crate) planned: Vec<(CallKind, u64)>,
    pub(crate) calls: Calls,
    ghost safe: { AreSafe (code_in loaded) tables } by { safe_prop (code_in loaded) tables },
}

// That of a switch which has just been loaded.
fn journal_of_load(alloc: Global) -> Result<Journal, NoMemory>
    ensures { IfOk result (λ journal. journal ≡ record { entries = entry.Load ∷ []; spare = 0 }) }
{
    let mut journal = Journal::new(alloc);
    journal.push(Entry::Load)?;
    Ok(journal)
}

impl ModelSwitch {
    ghost use Rattle.switch_machine.specs.UnderWay.{under_way};
    ghost use Rattle.switch_machine.specs.Views.{machine_of};

    /// A switch without code, and no fault planned. This takes no memory.
    pub fn new(alloc: Global) -> ModelSwitch
        ensures { machine_of result ≡ record {
          code = None;
          tables = record { pairs = []; bit = false };
          passes = none_under_way;
          journal = record { entries = []; spare = 0 };
          faults = 0;
          planned = [];
          calls = record {
            load = 0;
            room = 0;
            up = 0;
            down = 0;
            begin_up = 0;
            stage_up = 0;
            begin_down = 0;
            stage_down = 0;
            command = 0;
            visible = 0;
          };
        } }
    {
        ModelSwitch {
            loaded: None,
            tables: SwitchTables::none(alloc),
            journal: Journal::new(alloc),
            faults: 0,
            planned: Vec::new(alloc),
            calls: Calls::none(),
        }
    }

    /// Makes the call of this kind and number fail. The calls of a kind are numbered from 1, from the making of the
    /// switch on.
    pub fn fail_at(&mut self, call: CallKind, ordinal: u64) -> Result<(), NoMemory>
        ensures ok { let old = machine_of self.old in
            OnOk result (machine_of self.new ≡ record old { planned = old.planned ++ (call, ordinal) ∷ [] }) }
        ensures err { OnErr result (machine_of self.new ≡ machine_of self.old) }
    {
        self.planned.push((call, ordinal))?;
        Ok(())
    }

    /// The calls since the code was loaded.
    pub fn journal(&self) -> &Journal
        ensures { result.now ≡ (machine_of self.now).journal }
    {
        &self.journal
    }

    /// How many calls failed.
    pub fn faults(&self) -> u64
        ensures { result ≡ (machine_of self.now).faults }
    {
        self.faults
    }

    // Counts a call, and answers whether it is to fail.
    pub(crate) fn is_to_fail(&mut self, kind: CallKind) -> bool
        ensures told { result ≡ fails_next (machine_of self.old) kind }
        ensures counted { let old = machine_of self.old in
            machine_of self.new ≡ record old { calls = counted old.calls kind } }
    {
        let call = self.calls.count(kind);
        is_planned(&self.planned, kind, call)
    }

    // Counts a fault, where there was one.
    pub(crate) fn count_fault(&mut self, failed: bool)
        ensures counted { let old = machine_of self.old in
            machine_of self.new ≡ record old { faults = count_after failed old.faults } }
        ensures rises { IsCountedIf failed (machine_of self.old).faults (machine_of self.new).faults }
    {
        if failed {
            let _ = count(&mut self.faults);
        }
    }

    // Counts a call that leaves nothing where it fails, and its fault. It answers whether the call fails.
    fn fails(&mut self, kind: CallKind) -> bool
        ensures told { result ≡ fails_next (machine_of self.old) kind }
        ensures counted { machine_of self.new ≡ called (machine_of self.old) kind result }
        ensures rises { IsCountedIf result (machine_of self.old).faults (machine_of self.new).faults }
    {
        let fails = self.is_to_fail(kind);
        self.count_fault(fails);
        fails
    }

    // Puts a call last in the journal.
    pub(crate) fn note(&mut self, call: Call<'_>) -> Result<(), NoMemory>
        ensures ok { OnOk result (machine_of self.new ≡ with_entry (entry_of call.entry) (machine_of self.old)) }
        ensures err { OnErr result (machine_of self.new ≡ machine_of self.old) }
    {
        self.journal.note(call)
    }

    // A call over a packet, with its entry and its fault.
    fn call(&mut self, alloc: Global, event: &Event<'_>) -> Result<UpEnd, PortError>
        requires loaded { IsSome (machine_of self.old).code }
        requires can { (code : Code) → (machine_of self.old).code ≡ Some code
            → CanTake event.now code (passes_at (side_of event.now) (machine_of self.old)) }
        ensures leaves { Leaves (side_of event.now) (entry_for event.now) (Takes event.now) result
            (with_call (kind_of event.now) (machine_of self.old)) (machine_of self.new) }
        ensures side { IfOk result (IsOf (side_of event.now)) }
        ensures plan { PassEndsAsPlanned (fails_next (machine_of self.old) (kind_of event.now)) result }
    {
        if self.is_to_fail(event.kind()) {
            let failed = event.note_end(&mut self.journal, Err(PortError::Failed))?;
            self.count_fault(true);
            return failed;
        }
        let Some(loaded) = &mut self.loaded else {
            unreachable!()
        };
        let end = loaded.take(alloc, &self.tables, &mut self.journal, event)?;
        Ok(end)
    }

    fn try_load(&mut self, alloc: Global, code: &SwitchCode) -> Result<(), NoMemory>
        requires can { CanBeRun (code_of code.now) }
        requires ordered { AreOrdered (code_of code.now) }
        ensures ok { let old = machine_of self.old in
            OnOk result ((told : Told) × IsStart (code_of code.now) told
            × (machine_of self.new ≡ record old {
              code = Some (code_of code.now);
              tables = told;
              passes = none_under_way;
              journal = record { entries = entry.Load ∷ []; spare = 0 };
            })) }
        ensures err { OnErr result (machine_of self.new ≡ machine_of self.old) }
    {
        let tables = SwitchTables::start(alloc, code)?;
        let journal = journal_of_load(alloc)?;
        let loaded = Loaded::new(alloc, code)?;
        self.put_in(loaded, tables, journal);
        Ok(())
    }

    // Puts code, its tables and a journal in the place of what was loaded.
    fn put_in(&mut self, loaded: Loaded, tables: SwitchTables, journal: Journal)
        requires { AreSafe (code_in (Some loaded)) tables }
        ensures { let old = machine_of self.old in machine_of self.new ≡ record old {
          code = Some (code_of loaded.code);
          tables = tables;
          passes = under_way (Some loaded);
          journal = journal;
        } }
    {
        self.loaded = Some(loaded);
        self.tables = tables;
        self.journal = journal;
    }

    fn try_room(&mut self, commands: usize) -> Result<(), NoMemory>
        ensures ok { let old = machine_of self.old in
            OnOk result (machine_of self.new ≡ record old {
              journal = record {
                entries = old.journal.entries ++ entry.Room commands ∷ [];
                spare = max old.journal.spare commands;
              };
            }) }
        ensures err { let old = machine_of self.old in
            OnErr result ((spare : ℕ) × (old.journal.spare ≤ spare)
            × (machine_of self.new ≡ record old { journal = record old.journal { spare = spare } })) }
    {
        self.journal.reserve(commands)?;
        self.note(Call::Room(commands))
    }

    fn try_rows(&mut self, alloc: Global, object: u32) -> Result<Rows, NoMemory>
        requires { HasReplicated (seen_of (machine_of self.old)) object }
        ensures seen { IfOk result (λ rows. rows
            ≡ visible_rows self.old.tables.bit (pair_at self.old.tables.pairs object)) }
        ensures rows { (code : Code) (d : ObjectDecl) → (machine_of self.old).code ≡ Some code
            → IsReplicatedIn code object d → IfOk result (AreRowsOf d) }
        ensures ok { OnOk result (machine_of self.new ≡ with_entry (entry.Visible object) (machine_of self.old)) }
        ensures err { OnErr result (machine_of self.new ≡ machine_of self.old) }
    {
        let rows = self.tables.rows(alloc, object)?;
        self.note(Call::Visible(object))?;
        Ok(rows)
    }
}

impl SwitchPort for ModelSwitch {
    ghost use Rattle.switch_machine.specs.Views.{machine_of};

    ghost seen = { λ m. seen_of (machine_of m) };

    fn load(&mut self, alloc: Global, code: &SwitchCode) -> Result<(), PortError>
        requires { IsEmitted (code_of code.now) }
        ensures loads { Loads result (code_of code.now) (seen_of (machine_of self.old))
            (seen_of (machine_of self.new)) }
        ensures plan { EndsAsPlanned (fails_next (machine_of self.old) call.Load) result }
        ensures counted { IsCountedAs call.Load (has_failed result) (machine_of self.old) (machine_of self.new) }
    {
        if self.fails(CallKind::Load) {
            return Err(PortError::Failed);
        }
        self.try_load(alloc, code)?;
        Ok(())
    }

    fn room(&mut self, _alloc: Global, commands: usize) -> Result<(), PortError>
        requires { IsLoaded (seen_of (machine_of self.old)) }
        ensures room { MakesRoom result commands (seen_of (machine_of self.old)) (seen_of (machine_of self.new)) }
        ensures plan { EndsAsPlanned (fails_next (machine_of self.old) call.Room) result }
        ensures counted { IsCountedAs call.Room (has_failed result) (machine_of self.old) (machine_of self.new) }
    {
        if self.fails(CallKind::Room) {
            return Err(PortError::Failed);
        }
        self.try_room(commands)?;
        Ok(())
    }

    fn pass_up(
        &mut self,
        alloc: Global,
        number: u32,
        port: u8,
        packet: &[u8],
    ) -> Result<UpEnd, PortError>
        requires loaded { IsLoaded (seen_of (machine_of self.old)) }
        requires size { length packet.now ≤ largest_packet }
        ensures passes { PassesUp result number port packet.now
            (seen_of (machine_of self.old)) (seen_of (machine_of self.new)) }
        ensures plan { PassEndsAsPlanned (fails_next (machine_of self.old) call.Up) result }
        ensures counted { IsCountedAs call.Up (has_failed result) (machine_of self.old) (machine_of self.new) }
    {
        self.call(alloc, &Event::Up(number, port, packet, true))
    }

    fn pass_down(&mut self, alloc: Global, frame: &[u8]) -> Result<DownEnd, PortError>
        requires loaded { IsLoaded (seen_of (machine_of self.old)) }
        requires frame { IsDownFrame (seen_of (machine_of self.old)) frame.now }
        ensures passes { PassesDown result frame.now (seen_of (machine_of self.old)) (seen_of (machine_of self.new)) }
        ensures plan { PassEndsAsPlanned (fails_next (machine_of self.old) call.Down) result }
        ensures counted { IsCountedAs call.Down (has_failed result) (machine_of self.old) (machine_of self.new) }
    {
        down_end(self.call(alloc, &Event::Down(frame, true)))
    }

    fn begin_up(
        &mut self,
        alloc: Global,
        number: u32,
        port: u8,
        packet: &[u8],
    ) -> Result<UpEnd, PortError>
        requires loaded { IsLoaded (seen_of (machine_of self.old)) }
        requires size { length packet.now ≤ largest_packet }
        requires none { HasNoUpPass (seen_of (machine_of self.old)) number }
        ensures begins { BeginsUp result number port packet.now
            (seen_of (machine_of self.old)) (seen_of (machine_of self.new)) }
        ensures plan { PassEndsAsPlanned (fails_next (machine_of self.old) call.BeginUp) result }
        ensures counted { IsCountedAs call.BeginUp (has_failed result) (machine_of self.old) (machine_of self.new) }
    {
        self.call(alloc, &Event::Up(number, port, packet, false))
    }

    fn stage_up(&mut self, alloc: Global, number: u32) -> Result<UpEnd, PortError>
        requires { HasUpPass (seen_of (machine_of self.old)) number }
        ensures stages { StagesUp result number (seen_of (machine_of self.old)) (seen_of (machine_of self.new)) }
        ensures plan { PassEndsAsPlanned (fails_next (machine_of self.old) call.StageUp) result }
        ensures counted { IsCountedAs call.StageUp (has_failed result) (machine_of self.old) (machine_of self.new) }
    {
        self.call(alloc, &Event::Stage(Side::Before, number))
    }

    fn begin_down(&mut self, alloc: Global, frame: &[u8]) -> Result<DownEnd, PortError>
        requires loaded { IsLoaded (seen_of (machine_of self.old)) }
        requires frame { IsDownFrame (seen_of (machine_of self.old)) frame.now }
        requires none { HasNoDownPassOf (seen_of (machine_of self.old)) frame.now }
        ensures begins { BeginsDown result frame.now (seen_of (machine_of self.old)) (seen_of (machine_of self.new)) }
        ensures plan { PassEndsAsPlanned (fails_next (machine_of self.old) call.BeginDown) result }
        ensures counted { IsCountedAs call.BeginDown (has_failed result) (machine_of self.old) (machine_of self.new) }
    {
        down_end(self.call(alloc, &Event::Down(frame, false)))
    }

    fn stage_down(&mut self, alloc: Global, number: u32) -> Result<DownEnd, PortError>
        requires { HasDownPass (seen_of (machine_of self.old)) number }
        ensures stages { StagesDown result number (seen_of (machine_of self.old)) (seen_of (machine_of self.new)) }
        ensures plan { PassEndsAsPlanned (fails_next (machine_of self.old) call.StageDown) result }
        ensures counted { IsCountedAs call.StageDown (has_failed result) (machine_of self.old) (machine_of self.new) }
    {
        down_end(self.call(alloc, &Event::Stage(Side::Behind, number)))
    }

    fn command(&mut self, command: &Command) -> Result<(), PortError>
        requires loaded { IsLoaded (seen_of (machine_of self.old)) }
        requires named { CanCommand (seen_of (machine_of self.old)) command.now }
        requires spare { 0 < (seen_of (machine_of self.old)).spare }
        requires room { HasRoomFor (seen_of (machine_of self.old)) command.now }
        requires waits { WaitsForNone (seen_of (machine_of self.old)) command.now }
        ensures commands { Commands result command.now (seen_of (machine_of self.old)) (seen_of (machine_of self.new)) }
        ensures plan { EndsAsPlanned (fails_next (machine_of self.old) call.Command) result }
        ensures counted { IsCountedAs call.Command (has_failed result) (machine_of self.old) (machine_of self.new) }
    {
        if self.fails(CallKind::Command) {
            self.journal.push_command(command, Err(PortError::Failed));
            return Err(PortError::Failed);
        }
        self.tables.apply(command);
        self.journal.push_command(command, Ok(()));
        Ok(())
    }

    fn visible(&mut self, alloc: Global, object: u32) -> Result<Rows, PortError>
        requires loaded { IsLoaded (seen_of (machine_of self.old)) }
        requires replicated { HasReplicated (seen_of (machine_of self.old)) object }
        ensures shows { ShowsRows result object (seen_of (machine_of self.old)) (seen_of (machine_of self.new)) }
        ensures plan { EndsAsPlanned (fails_next (machine_of self.old) call.Visible) result }
        ensures counted { IsCountedAs call.Visible (has_failed result) (machine_of self.old) (machine_of self.new) }
    {
        if self.fails(CallKind::Visible) {
            return Err(PortError::Failed);
        }
        let rows = self.try_rows(alloc, object)?;
        Ok(rows)
    }
}
