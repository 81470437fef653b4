//! The allocation of registers to the values of a server's run, by live ranges, and the steps that the run takes.
ghost use Rattle.std.specs.Prelude.{◌≡◌, ◌+◌, ◌<◌, ◌++◌, ◌^◌, ◌&&◌, ◌||◌, Bool, ℕ, suc, length, map, max, slice_index, slice_set};
ghost use Rattle.std.specs.Prelude.{All, IfOk, OnOk, IsTrue, if◌then◌else◌};
ghost use Rattle.std.specs.List.{AllByRecursion as Each};
ghost use Rattle.flat_ir.specs.Kinds.{is_input, is_write};
ghost use Rattle.flat_ir.specs.Program.{is_named, operands, program_of, step_at, work_of};
ghost use Rattle.split_model.specs.Layouts.{values_of};
ghost use Rattle.split_model.specs.Passes.{server_fields};
ghost use Rattle.split_model.specs.Split.{is_server};
ghost use Rattle.transfer_header.specs.BlockSteps.{greatest, step_if};
ghost use Rattle.transfer_header.specs.Steps.{is_among};
ghost use Rattle.server_runtime.specs.Plans.{IsPrepared};
ghost use Rattle.server_runtime.specs.Registers.{AreServing};
ghost use Rattle.server_runtime.specs.Resolved.{instructions_of, AreResolved, IsResolved};
ghost use Rattle.server_runtime.specs.Noting.{is_condition_of, is_operand_at, is_written_at};
ghost use Rattle.server_runtime.specs.Spans.{last_below, numbers_of, reads_at};
ghost use Rattle.server_runtime.specs.Spans.{server_spans, values_at, values_kept, writes_at};
ghost use Rattle.server_runtime.specs.Walks.{is_due, AreLastReads, AreDue};

use crate::plan::{PlannedStep, PreparedProgram};
use crate::resolved::{planned_step, seats_of};
use flat_ir::{Instr, InstrKind, RegPlan, Span, Spans, ValueId};
use gal_io::NoMemory;
use split_model::Layout;
use std::alloc::Global;
use transfer_header::{BlockSteps, Regs};

// Whether the server evaluates an instruction.
fn is_mine(whole: &PreparedProgram, instruction: usize, kind: &InstrKind) -> bool
    ensures { result ≡ (is_input (work_of kind.now) || is_server whole.now.split instruction) }
{
    kind.is_input() || whole.split.is_server(instruction)
}

// Puts the numbers of some values last.
fn push_numbers(
    whole: &PreparedProgram,
    values: &[ValueId],
    numbers: &mut Vec<u32>,
) -> Result<(), NoMemory>
    requires prepared { IsPrepared whole.now }
    requires named { Each (λ v. IsTrue (is_named (program_of whole.now.flat) v)) values.now }
    ensures { OnOk result (
        numbers.new.items ≡ numbers.old.items ++ numbers_of (program_of whole.now.flat) values.now) }
{
    for value in values {
        numbers.push(whole.number_of(*value))?;
    }
    Ok(())
}

// Puts the numbers of an instruction's operands last.
fn push_operands(
    whole: &PreparedProgram,
    kind: &InstrKind,
    numbers: &mut Vec<u32>,
) -> Result<(), NoMemory>
    requires prepared { IsPrepared whole.now }
    requires named { Each (λ v. IsTrue (is_named (program_of whole.now.flat) v)) (operands (work_of kind.now)) }
    ensures { OnOk result (numbers.new.items
        ≡ numbers.old.items ++ numbers_of (program_of whole.now.flat) (operands (work_of kind.now))) }
{
    match kind {
        InstrKind::Const(..) | InstrKind::Field(_) => Ok(()),
        InstrKind::Apply { args, .. } => push_numbers(whole, args, numbers),
        InstrKind::Shift { arg, .. } => push_numbers(whole, &[*arg], numbers),
        InstrKind::Select {
            cond,
            first,
            second,
            ..
        } => push_numbers(whole, &[*cond, *first, *second], numbers),
        InstrKind::Byte(index) => push_numbers(whole, &[*index], numbers),
        InstrKind::Look { keys, .. } => push_numbers(whole, keys, numbers),
        InstrKind::Del { keys, .. } => push_numbers(whole, keys, numbers),
        InstrKind::Put { keys, values, .. } => {
            push_numbers(whole, keys, numbers)?;
            push_numbers(whole, values, numbers)
        }
    }
}

// The numbers of the operands of instruction `i`.
fn operands_of(alloc: Global, whole: &PreparedProgram, i: usize) -> Result<Vec<u32>, NoMemory>
    requires prepared { IsPrepared whole.now }
    requires within { i < length whole.now.flat.code }
    ensures { let f = program_of whole.now.flat in
        IfOk result (λ numbers. numbers.items ≡ numbers_of f (operands (step_at f i).work)) }
{
    let instr = &whole.flat.code.as_slice()[i];
    let mut numbers = Vec::new(alloc);
    push_operands(whole, &instr.kind, &mut numbers)?;
    Ok(numbers)
}

// Puts the numbers of a layout's values last.
fn push_layout(layout: &Layout, numbers: &mut Vec<u32>) -> Result<(), NoMemory>
    ensures { OnOk result (numbers.new.items ≡ numbers.old.items ++ map (λ c. c.number) layout.now) }
{
    for crossing in layout.as_slice() {
        numbers.push(crossing.number)?;
    }
    Ok(())
}

// Puts the numbers of the values last that the server sets fields to.
fn push_written(whole: &PreparedProgram, numbers: &mut Vec<u32>) -> Result<(), NoMemory>
    requires prepared { IsPrepared whole.now }
    ensures { let f = program_of whole.now.flat in
        OnOk result (numbers.new.items
        ≡ numbers.old.items ++ numbers_of f (map (λ w. w.value) (server_fields f whole.now.split))) }
{
    for written in &whole.fields {
        numbers.push(whole.number_of(written.value))?;
    }
    Ok(())
}

// The numbers of the values that are read once all instructions are done.
#[tactic(auto, using(crate::proofs::Listed::kept_numbers))]
fn numbers_kept(alloc: Global, whole: &PreparedProgram) -> Result<Vec<u32>, NoMemory>
    requires prepared { IsPrepared whole.now }
    ensures { let f = program_of whole.now.flat in
        IfOk result (λ numbers. numbers.items ≡ numbers_of f (values_kept f whole.now.split)) }
{
    let mut numbers = Vec::new(alloc);
    push_layout(&whole.down, &mut numbers)?;
    push_written(whole, &mut numbers)?;
    Ok(numbers)
}

// Notes that a step reads some values.
fn note(numbers: &[u32], step: u32, last: &mut Vec<u32>)
    requires within { All (λ n. n < length last.old.items) numbers.now }
    ensures last { (n : ℕ) → n < length last.old.items → slice_index last.new.items n
        ≡ (if is_among n numbers.now then step else slice_index last.old.items n) }
    ensures count { length last.new.items ≡ length last.old.items }
{
    for number in numbers {
        last[*number as usize] = step;
    }
}

// Notes that a step is a write in its block, where it is one.
fn note_write(instr: &Instr, step: u32, blocks: &mut BlockSteps)
    requires { instr.now.block < length blocks.old }
    ensures count { length blocks.new ≡ length blocks.old }
    ensures steps { (test : ℕ → Bool) → greatest test blocks.new
        ≡ max (greatest test blocks.old) (step_if (is_write (work_of instr.now.kind) && test instr.now.block) step) }
{
    if instr.kind.is_write() {
        blocks.note(instr.block, step);
    }
}

// Notes the operands of instruction `i`, and its block where it is a write, if the server evaluates it.
fn note_step(
    alloc: Global,
    whole: &PreparedProgram,
    i: usize,
    blocks: &mut BlockSteps,
    last: &mut Vec<u32>,
) -> Result<(), NoMemory>
    requires prepared { IsPrepared whole.now }
    requires within { i < length whole.now.flat.code }
    requires blocks { length blocks.old ≡ suc (length whole.now.flat.blocks) }
    requires count { length last.old.items ≡ length (values_of (program_of whole.now.flat)) }
    ensures blocks { length blocks.new ≡ length blocks.old }
    ensures count { length last.new.items ≡ length last.old.items }
    ensures writes { let f = program_of whole.now.flat in
        OnOk result ((test : ℕ → Bool) → greatest test blocks.new
        ≡ max (greatest test blocks.old) (step_if (is_written_at f whole.now.split test (suc i)) (suc i))) }
    ensures last { let f = program_of whole.now.flat in
        OnOk result ((n : ℕ) → n < length last.old.items → slice_index last.new.items n
        ≡ (if is_operand_at f whole.now.split n (suc i) then suc i else slice_index last.old.items n)) }
{
    let instr = &whole.flat.code.as_slice()[i];
    if !is_mine(whole, i, &instr.kind) {
        return Ok(());
    }
    let step = i as u32 + 1;
    note_write(instr, step, blocks);
    let numbers = operands_of(alloc, whole, i)?;
    note(&numbers, step, last);
    Ok(())
}

// Notes that a step reads a value.
fn note_one(number: u32, step: u32, last: &mut Vec<u32>)
    requires { number < length last.old.items }
    ensures { last.new.items ≡ slice_set last.old.items number (max (slice_index last.old.items number) step) }
{
    let place = number as usize;
    last[place] = last[place].max(step);
}

// Notes that the condition of each block is read at the block's step.
fn note_conditions(whole: &PreparedProgram, blocks: &BlockSteps, last: &mut Vec<u32>)
    requires prepared { IsPrepared whole.now }
    requires blocks { length blocks.now ≡ suc (length whole.now.flat.blocks) }
    requires count { length last.old.items ≡ length (values_of (program_of whole.now.flat)) }
    ensures count { length last.new.items ≡ length last.old.items }
    ensures last { let f = program_of whole.now.flat in
        (n : ℕ) → n < length last.old.items → slice_index last.new.items n
        ≡ max (slice_index last.old.items n) (greatest (is_condition_of f n) blocks.now) }
{
    for (place, block) in whole.flat.blocks.as_slice().iter().enumerate() {
        let number = whole.number_of(block.cond);
        note_one(number, blocks.at(place + 1), last);
    }
}

// The last instruction's step that reads each value, 0 where none does.
fn step_reads(alloc: Global, whole: &PreparedProgram) -> Result<Vec<u32>, NoMemory>
    requires { IsPrepared whole.now }
    ensures last { let f = program_of whole.now.flat in
        IfOk result (λ last. (n : ℕ) → n < length (values_of f) → slice_index last.items n
        ≡ last_below (length f.code + 1) (λ step. reads_at f whole.now.split step n)) }
    ensures count { IfOk result (λ last. length last.items ≡ length (values_of (program_of whole.now.flat))) }
{
    let count = whole.flat.code.len();
    let mut blocks = BlockSteps::new(alloc, &whole.flat.blocks)?;
    let mut last = vec![in alloc; 0u32; whole.first(count) as usize]?;
    for i in 0..count {
        note_step(alloc, whole, i, &mut blocks, &mut last)?;
    }
    blocks.hand_up(&whole.flat.blocks);
    note_conditions(whole, &blocks, &mut last);
    Ok(last)
}

// The step that reads each value last, 0 where none does.
fn last_reads(alloc: Global, whole: &PreparedProgram) -> Result<Vec<u32>, NoMemory>
    requires { IsPrepared whole.now }
    ensures { IfOk result (λ last. AreLastReads (program_of whole.now.flat) whole.now.split last.items) }
{
    let mut last = step_reads(alloc, whole)?;
    let numbers = numbers_kept(alloc, whole)?;
    note(&numbers, whole.flat.code.len() as u32 + 1, &mut last);
    Ok(last)
}

// The numbers of the values that are handed up.
#[tactic(auto, using(crate::proofs::Listed::crossing_numbers))]
fn numbers_handed(alloc: Global, whole: &PreparedProgram) -> Result<Vec<u32>, NoMemory>
    requires { IsPrepared whole.now }
    ensures { IfOk result (λ numbers.
        numbers.items ≡ writes_at (program_of whole.now.flat) whole.now.split 0) }
{
    let mut numbers = Vec::new(alloc);
    push_layout(&whole.up, &mut numbers)?;
    Ok(numbers)
}

// The numbers of the values of instruction `i`.
fn numbers_at(alloc: Global, whole: &PreparedProgram, i: usize) -> Result<Vec<u32>, NoMemory>
    requires prepared { IsPrepared whole.now }
    requires within { i < length whole.now.flat.code }
    ensures { let f = program_of whole.now.flat in
        IfOk result (λ numbers. numbers.items ≡ numbers_of f (values_at f i)) }
{
    let first = whole.first(i);
    let count = whole.first(i + 1) - first;
    let mut numbers = Vec::new(alloc);
    for place in 0..count {
        numbers.push(first + place)?;
    }
    Ok(numbers)
}

// The numbers of the values of instruction `i`, where the server evaluates it.
fn numbers_written(alloc: Global, whole: &PreparedProgram, i: usize) -> Result<Vec<u32>, NoMemory>
    requires prepared { IsPrepared whole.now }
    requires within { i < length whole.now.flat.code }
    ensures { IfOk result (λ numbers.
        numbers.items ≡ writes_at (program_of whole.now.flat) whole.now.split (suc i)) }
{
    if !is_mine(whole, i, &whole.flat.code.as_slice()[i].kind) {
        return Ok(Vec::new(alloc));
    }
    numbers_at(alloc, whole, i)
}

// Puts the spans of values last that are written at a step.
fn push_spans(spans: &mut Spans, from: u32, numbers: &[u32], last: &[u32]) -> Result<(), NoMemory>
    requires { All (λ n. n < length last.now) numbers.now }
    ensures { OnOk result (spans.new ≡ spans.old
        ++ map (λ n. record { value = n; from = from; to = max from (slice_index last.now n) }) numbers.now) }
{
    for number in numbers {
        spans.push(Span {
            value: *number,
            from,
            to: from.max(last[*number as usize]),
        })?;
    }
    Ok(())
}

// The spans of the values of a run.
fn spans_of(alloc: Global, whole: &PreparedProgram, last: &[u32]) -> Result<Spans, NoMemory>
    requires prepared { IsPrepared whole.now }
    requires last { AreLastReads (program_of whole.now.flat) whole.now.split last.now }
    ensures { IfOk result (λ spans. spans ≡ server_spans (program_of whole.now.flat) whole.now.split) }
{
    let mut spans = Spans::new(alloc);
    let handed = numbers_handed(alloc, whole)?;
    push_spans(&mut spans, 0, &handed, last)?;
    for i in 0..whole.flat.code.len() {
        let numbers = numbers_written(alloc, whole, i)?;
        push_spans(&mut spans, i as u32 + 1, &numbers, last)?;
    }
    Ok(spans)
}

// Whether a run takes a step at instruction `i`: it is the server's, or a const or a field that is read later.
fn is_due(whole: &PreparedProgram, last: &[u32], i: usize) -> bool
    requires prepared { IsPrepared whole.now }
    requires within { i < length whole.now.flat.code }
    requires last { AreLastReads (program_of whole.now.flat) whole.now.split last.now }
    ensures { result ≡ is_due (program_of whole.now.flat) whole.now.split i }
{
    if whole.flat.code.as_slice()[i].kind.is_input() {
        last[whole.first(i) as usize] > i as u32 + 1
    } else {
        whole.split.is_server(i)
    }
}

// The steps of a run, in order, with the places of their operands and results among registers.
fn planned_steps(
    alloc: Global,
    whole: &PreparedProgram,
    last: &[u32],
    values: &Regs,
) -> Result<Vec<PlannedStep>, NoMemory>
    requires prepared { IsPrepared whole.now }
    requires last { AreLastReads (program_of whole.now.flat) whole.now.split last.now }
    ensures steps { IfOk result (λ steps.
        AreDue (program_of whole.now.flat) whole.now.split (instructions_of steps.items)) }
    ensures resolved { IfOk result (λ steps. Each (IsResolved (program_of whole.now.flat) values.now) steps.items) }
{
    let mut steps = Vec::new(alloc);
    for i in 0..whole.flat.code.len() {
        if is_due(whole, last, i) {
            steps.push(planned_step(alloc, whole, values, i)?)?;
        }
    }
    Ok(steps)
}

/// The registers of a run's values, as few as the values need at once, the place of each instruction's first value among
/// them, and the steps that the run takes, in order.
#[derive(Drop)]
pub(crate) struct Allocation {
    pub values: Regs,
    pub seats: Vec<u32>,
    pub steps: Vec<PlannedStep>,
}

/// The registers and steps of a run, with a zero in each register.
pub(crate) fn allocate(alloc: Global, whole: &PreparedProgram) -> Result<Allocation, NoMemory>
    requires { IsPrepared whole.now }
    ensures serving { IfOk result (λ made. AreServing (program_of whole.now.flat) whole.now.split made.values) }
    ensures resolved { IfOk result (λ made.
        AreResolved (program_of whole.now.flat) made.seats.items made.steps.items made.values) }
    ensures steps { IfOk result (λ made.
        AreDue (program_of whole.now.flat) whole.now.split (instructions_of made.steps.items)) }
{
    let last = last_reads(alloc, whole)?;
    let spans = spans_of(alloc, whole, &last)?;
    let plan = RegPlan::of(alloc, &spans)?;
    let values = Regs::planned(alloc, plan)?;
    let seats = seats_of(alloc, whole, &values)?;
    let steps = planned_steps(alloc, whole, &last, &values)?;
    Ok(Allocation {
        values,
        seats,
        steps,
    })
}
