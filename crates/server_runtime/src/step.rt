//! A step of the server's run, at one instruction.
ghost use Rattle.std.specs.Prelude.{◌≡◌, ◌+◌, ◌<◌, ◌≤◌, ◌++◌, ◌∷◌, [], ℕ, true, false};
ghost use Rattle.std.specs.Prelude.{length, vec_capacity, vec_len, IsTrue, List};
ghost use Rattle.flat_ir.specs.Fits.{fits};
ghost use Rattle.flat_ir.specs.Kinds.{is_write};
ghost use Rattle.flat_ir.specs.Program.{program_of, work_of};
ghost use Rattle.flat_ir.specs.Registers.{packet_of};
ghost use Rattle.flat_ir.specs.Run.{made};
ghost use Rattle.split_model.specs.declared.split.Part.{Part};
ghost use Rattle.transfer_header.specs.Ready.{ready_work};
ghost use Rattle.transfer_header.specs.Registers.{place_of};
ghost use Rattle.server_runtime.specs.Plans.{IsPrepared};
ghost use Rattle.server_runtime.specs.Registers.{register_reads, AreSeats, HaveRegisters};
ghost use Rattle.server_runtime.specs.Resolved.{IsResolved};
ghost use Rattle.server_runtime.specs.Serving.{updates_of};
ghost use Rattle.server_runtime.specs.StepsTaken.{changed_by, told_of, wanted, HasRoomFor, IsStepTaken, IsAtStep};

use crate::plan::{PlannedStep, PreparedProgram};
use crate::registers::Registers;
use flat_ir::{Arrival, InstrKind, compute_number, key_of, row_of};
use state_store::Store;
use transfer_header::Regs;
use writeback_table::{To, Update};

// Puts a change last. There is room for it.
fn push(updates: &mut Vec<Update>, update: Update)
    requires { vec_len updates.old < vec_capacity updates.old }
    ensures items { updates.new.items ≡ updates.old.items ++ update ∷ [] }
    ensures room { vec_capacity updates.old ≤ vec_capacity updates.new }
{
    let is_put = updates.extend_from_slice(&[update]).is_ok();
    prove!(is_put);
}

// Tells the switch of a change, where its object is replicated.
fn follow(whole: &PreparedProgram, update: Update, updates: &mut Vec<Update>)
    requires prepared { IsPrepared whole.now }
    requires declared { update.object < length whole.now.flat.objects }
    requires room { vec_len updates.old + length (told_of (program_of whole.now.flat) whole.now.split update)
        ≤ vec_capacity updates.old }
    ensures told { updates.new.items
        ≡ updates.old.items ++ told_of (program_of whole.now.flat) whole.now.split update }
    ensures room { vec_capacity updates.old ≤ vec_capacity updates.new }
{
    if whole.follows(update.object) {
        push(updates, update);
    }
}

// Tells the switch of a put or a del that took effect.
fn tell_write(numbers: &Registers<'_>, kind: &InstrKind, updates: &mut Vec<Update>)
    requires prepared { IsPrepared numbers.now.whole.now }
    requires fits { IsTrue (fits (program_of numbers.now.whole.now.flat) (work_of kind.now)) }
    requires room { let f = program_of numbers.now.whole.now.flat in
        vec_len updates.old + length (updates_of f numbers.now.whole.now.split
        (made true (wanted (register_reads f numbers.now.values.now) (work_of kind.now)))) ≤ vec_capacity updates.old }
    ensures told { let f = program_of numbers.now.whole.now.flat in
        updates.new.items ≡ updates.old.items ++ updates_of f numbers.now.whole.now.split
        (made true (wanted (register_reads f numbers.now.values.now) (work_of kind.now))) }
    ensures room { vec_capacity updates.old ≤ vec_capacity updates.new }
{
    let whole = numbers.whole;
    let f = &whole.flat;
    match kind {
        InstrKind::Put {
            object,
            keys,
            values,
        } => {
            let key = key_of(f, numbers, *object, keys);
            let to = To::Value(row_of(f, numbers, *object, values));
            let update = Update {
                object: *object,
                key,
                to,
            };
            follow(whole, update, updates);
        }
        InstrKind::Del { object, keys } => {
            let key = key_of(f, numbers, *object, keys);
            let update = Update {
                object: *object,
                key,
                to: To::Gone,
            };
            follow(whole, update, updates);
        }
        _ => {}
    }
}

// Tells the switch of an instruction that gave this number.
fn tell(numbers: &Registers<'_>, kind: &InstrKind, number: u64, updates: &mut Vec<Update>)
    requires prepared { IsPrepared numbers.now.whole.now }
    requires fits { IsTrue (fits (program_of numbers.now.whole.now.flat) (work_of kind.now)) }
    requires room { let f = program_of numbers.now.whole.now.flat in
        vec_len updates.old + length (updates_of f numbers.now.whole.now.split
        (changed_by (register_reads f numbers.now.values.now) number (work_of kind.now))) ≤ vec_capacity updates.old }
    ensures told { let f = program_of numbers.now.whole.now.flat in
        updates.new.items ≡ updates.old.items ++ updates_of f numbers.now.whole.now.split
        (changed_by (register_reads f numbers.now.values.now) number (work_of kind.now)) }
    ensures room { vec_capacity updates.old ≤ vec_capacity updates.new }
{
    if number == 1 {
        tell_write(numbers, kind, updates);
    }
}

// The step of a put or a del.
fn write(
    whole: &PreparedProgram,
    arrival: &Arrival<'_>,
    step: &PlannedStep,
    values: &mut Regs,
    store: &mut Store,
    updates: &mut Vec<Update>,
)
    requires at { IsAtStep whole.now arrival.now step.now.instruction }
    requires resolved { IsResolved (program_of whole.now.flat) values.old step.now }
    requires write { is_write (ready_work step.now.ready.kind) ≡ true }
    requires has { HaveRegisters (program_of whole.now.flat) step.now.instruction values.old }
    requires seats { AreSeats (program_of whole.now.flat) whole.now.seats.items values.old }
    requires room { HasRoomFor (program_of whole.now.flat) whole.now.split (packet_of arrival.now) step.now.instruction
        values.old store.old (vec_len updates.old) (vec_capacity updates.old) }
    ensures taken { IsStepTaken (program_of whole.now.flat) whole.now.split (packet_of arrival.now) step.now.instruction
        values.old store.old values.new store.new updates.old.items updates.new.items }
    ensures places { (value : ℕ) → place_of values.new value ≡ place_of values.old value }
    ensures room { vec_capacity updates.old ≤ vec_capacity updates.new }
{
    let instruction = step.instruction as usize;
    let instr = &whole.flat.code.as_slice()[instruction];
    let numbers = Registers { whole, values };
    let number = compute_number(&whole.flat, store, arrival, &numbers, instr);
    tell(&numbers, &instr.kind, number, updates);
    step.ready.places.put_number(number, values);
}

// The step of an instruction that stores and removes nothing.
fn compute(
    whole: &PreparedProgram,
    arrival: &Arrival<'_>,
    step: &PlannedStep,
    values: &mut Regs,
    store: &Store,
)
    requires at { IsAtStep whole.now arrival.now step.now.instruction }
    requires resolved { IsResolved (program_of whole.now.flat) values.old step.now }
    requires write { is_write (ready_work step.now.ready.kind) ≡ false }
    requires has { HaveRegisters (program_of whole.now.flat) step.now.instruction values.old }
    ensures taken { (split : List Part) (updates : List Update) → IsStepTaken (program_of whole.now.flat) split
        (packet_of arrival.now) step.now.instruction values.old store.now values.new store.now updates updates }
    ensures places { (value : ℕ) → place_of values.new value ≡ place_of values.old value }
{
    step.ready.run(store, arrival, values);
}

/// A step of the server, at an instruction that it evaluates. What the switch is told of it goes into `updates`, which
/// has room for it.
pub(crate) fn take_step(
    whole: &PreparedProgram,
    arrival: &Arrival<'_>,
    step: &PlannedStep,
    values: &mut Regs,
    store: &mut Store,
    updates: &mut Vec<Update>,
)
    requires at { IsAtStep whole.now arrival.now step.now.instruction }
    requires resolved { IsResolved (program_of whole.now.flat) values.old step.now }
    requires has { HaveRegisters (program_of whole.now.flat) step.now.instruction values.old }
    requires seats { AreSeats (program_of whole.now.flat) whole.now.seats.items values.old }
    requires room { HasRoomFor (program_of whole.now.flat) whole.now.split (packet_of arrival.now) step.now.instruction
        values.old store.old (vec_len updates.old) (vec_capacity updates.old) }
    ensures taken { IsStepTaken (program_of whole.now.flat) whole.now.split (packet_of arrival.now) step.now.instruction
        values.old store.old values.new store.new updates.old.items updates.new.items }
    ensures places { (value : ℕ) → place_of values.new value ≡ place_of values.old value }
    ensures room { vec_capacity updates.old ≤ vec_capacity updates.new }
{
    if step.ready.kind.is_write() {
        write(whole, arrival, step, values, store, updates);
    } else {
        compute(whole, arrival, step, values, store);
    }
}
