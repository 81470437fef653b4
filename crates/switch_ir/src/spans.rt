//! For how long the values of a pass are needed, and the registers that they are in.
ghost use Rattle.std.specs.Prelude.{◌≡◌, ◌≤◌, ◌<◌, ◌+◌, ◌^◌, ◌++◌, ◌||◌, ◌∷◌, [], Bool, ℕ, suc, length, map};
ghost use Rattle.std.specs.Prelude.{unwrap_or, IfOk, OnOk};
ghost use Rattle.std.specs.List.{list_any, AllByRecursion as Each};
ghost use Rattle.std.specs.Option.{option_map};
ghost use Rattle.state_store.specs.declared.object.ObjectDecl.{ObjectDecl};
ghost use Rattle.flat_ir.specs.Blocks.{line, HasLowParents};
ghost use Rattle.flat_ir.specs.Program.{work_of};
ghost use Rattle.split_model.specs.Crossing.{is_value, is_among};
ghost use Rattle.transfer_header.specs.BlockSteps.{greatest, step_if};
ghost use Rattle.transfer_header.specs.Plans.{IsPlanOf};
ghost use Rattle.switch_ir.specs.LastReads.{noted, AreNoted, Adds, Raises, CanBePlanned, HaveFewValues};
ghost use Rattle.switch_ir.specs.Passes.{pass_of, pass_step_of};
ghost use Rattle.switch_ir.specs.Spans.{handed_in, is_condition, is_tested, last_read, last_stage, pass_spans};
ghost use Rattle.switch_ir.specs.Spans.{results_in, results_of, span_of, written_by, AreNumbered};
ghost use Rattle.switch_ir.specs.Tables.{declared_at};

use crate::code::{Pass, PassStep, Steps, Tables};
use crate::last_reads::LastReads;
use flat_ir::{Blocks, Flat, InstrKind, Out, RegPlan, Span, Spans, ValueId};
use gal_io::NoMemory;
use split_model::Layout;
use std::alloc::Global;
use transfer_header::BlockSteps;

// Notes what the instructions of a pass read.
fn note_steps(pass: &Pass, last: &mut LastReads)
    ensures { Adds (last_stage (pass_of pass.now).steps) last.old last.new }
{
    for step in pass.steps.as_slice() {
        last.note_operands(&step.kind, step.stage);
    }
}

// Notes that the values of a layout are read.
fn note_layout(layout: &Layout, step: u32, last: &mut LastReads)
    ensures { Raises (λ v. list_any (λ c. is_value v c.value) layout.now) step last.old last.new }
{
    for crossing in layout.as_slice() {
        last.note(crossing.value, step);
    }
}

// The blocks in which a pass leaves work, and those above them, with a step.
fn tested_blocks(alloc: Global, pass: &Pass, step: u32) -> Result<BlockSteps, NoMemory>
    requires parents { HasLowParents (pass_of pass.now).blocks }
    requires blocks_in_range { Each (λ b. b ≤ length (pass_of pass.now).blocks) (pass_of pass.now).rest }
    ensures count { IfOk result (λ steps. length steps ≡ suc (length (pass_of pass.now).blocks)) }
    ensures steps { IfOk result (λ steps. (test : ℕ → Bool) → greatest test steps
        ≡ step_if (list_any (λ b. list_any test (line (pass_of pass.now).blocks b)) (pass_of pass.now).rest) step) }
{
    let mut steps = BlockSteps::new(alloc, &pass.blocks)?;
    for block in &pass.rest {
        steps.note(*block, step);
    }
    steps.hand_up(&pass.blocks);
    Ok(steps)
}

// Notes that the condition of each block is read at the block's step.
fn note_conditions(blocks: &Blocks, steps: &BlockSteps, last: &mut LastReads)
    requires count { length steps.now ≡ suc (length blocks.now) }
    ensures { Adds (λ v. greatest (is_condition blocks.now v) steps.now) last.old last.new }
{
    for (place, block) in blocks.as_slice().iter().enumerate() {
        last.note(block.cond, steps.at(place + 1));
    }
}

// Notes what decides whether a packet goes up.
fn note_tested(alloc: Global, pass: &Pass, step: u32, last: &mut LastReads) -> Result<(), NoMemory>
    requires parents { HasLowParents (pass_of pass.now).blocks }
    requires blocks_in_range { Each (λ b. b ≤ length (pass_of pass.now).blocks) (pass_of pass.now).rest }
    ensures { OnOk result (Raises (is_tested (pass_of pass.now)) step last.old last.new) }
{
    let steps = tested_blocks(alloc, pass, step)?;
    note_conditions(&pass.blocks, &steps, last);
    Ok(())
}

// Notes what becomes of the packet.
fn note_out(out: &Out, step: u32, last: &mut LastReads)
    ensures { Raises (λ v. is_among v (out.now.send ∷ out.now.port ∷ [])
        || list_any (λ w. is_value v w.value) out.now.fields.items) step last.old last.new }
{
    for written in &out.fields {
        last.note(written.value, step);
    }
    last.note_all(&[out.send, out.port], step);
}

// When each value of a pass is read last, which hands up the values of a layout.
fn last_reads(
    alloc: Global,
    pass: &Pass,
    up: &Layout,
    instructions: usize,
) -> Result<LastReads, NoMemory>
    requires parents { HasLowParents (pass_of pass.now).blocks }
    requires blocks_in_range { Each (λ b. b ≤ length (pass_of pass.now).blocks) (pass_of pass.now).rest }
    requires few_instructions { (instructions < 2 ^ 32) × (pass.now.highest + 1 < 2 ^ 32) }
    ensures { IfOk result (AreNoted instructions (last_read up.now (pass_of pass.now))) }
{
    let mut last = LastReads::new(alloc, instructions)?;
    let end = pass.highest + 1;
    note_steps(pass, &mut last);
    note_layout(up, end, &mut last);
    note_tested(alloc, pass, end, &mut last)?;
    note_out(&pass.out, end, &mut last);
    Ok(last)
}

// The span of a value that a stage writes.
fn span(value: ValueId, number: u32, stage: u32, last: &LastReads) -> Span
    ensures { result ≡ span_of (noted last.now) (record { value = value; number = number; stage = stage }) }
{
    Span {
        value: number,
        from: stage,
        to: last.at(value).max(stage),
    }
}

// How many numbers a row of an object has beside its key, by the objects that the passes look up.
fn row_values(tables: &Tables, object: u32) -> u32
    ensures value { result
        ≡ length (unwrap_or (option_map (λ (d : ObjectDecl). d.values) (declared_at tables.now object)) []) }
    ensures bounded { result ≤ 8 }
{
    for table in tables.as_slice() {
        if table.number == object {
            return table.object.values.len() as u32;
        }
    }
    0
}

// How many results an instruction has.
fn results(tables: &Tables, kind: &InstrKind) -> u32
    ensures value { result ≡ results_in tables.now (work_of kind.now) }
    ensures bounded { result ≤ 9 }
{
    match kind {
        InstrKind::Look { object, .. } => 1 + row_values(tables, *object),
        _ => 1,
    }
}

// Puts the spans of an instruction's first results last.
fn push_results(
    spans: &mut Spans,
    step: &PassStep,
    count: u32,
    last: &LastReads,
) -> Result<(), NoMemory>
    requires few_results { count ≤ 9 }
    requires numbers { AreNumbered (2 ^ 32) (results_of (pass_step_of step.now) count) }
    ensures { OnOk result (spans.new
        ≡ spans.old ++ map (span_of (noted last.now)) (results_of (pass_step_of step.now) count)) }
{
    for result in 0..count {
        let value = ValueId {
            instruction: step.instruction,
            result,
        };
        spans.push(span(value, step.first + result, step.stage, last))?;
    }
    Ok(())
}

// Puts the spans of the results of instructions last.
fn push_steps(
    spans: &mut Spans,
    steps: &Steps,
    tables: &Tables,
    last: &LastReads,
) -> Result<(), NoMemory>
    requires { AreNumbered (2 ^ 32) (written_by tables.now (map pass_step_of steps.now)) }
    ensures { OnOk result (spans.new
        ≡ spans.old ++ map (span_of (noted last.now)) (written_by tables.now (map pass_step_of steps.now))) }
{
    for step in steps.as_slice() {
        push_results(spans, step, results(tables, &step.kind), last)?;
    }
    Ok(())
}

// Puts the spans of the values last that a frame hands in.
fn push_handed(spans: &mut Spans, layout: &Layout, last: &LastReads) -> Result<(), NoMemory>
    ensures { OnOk result (spans.new ≡ spans.old ++ map (span_of (noted last.now)) (handed_in layout.now)) }
{
    for crossing in layout.as_slice() {
        spans.push(span(crossing.value, crossing.number, 0, last))?;
    }
    Ok(())
}

/// The spans of a pass of so many instructions, to which the values of a layout are handed, and which hands up those of
/// another.
pub(crate) fn spans_of(
    alloc: Global,
    pass: &Pass,
    handed: &Layout,
    up: &Layout,
    tables: &Tables,
    instructions: usize,
) -> Result<Spans, NoMemory>
    requires { CanBePlanned tables.now handed.now (pass_of pass.now) instructions }
    ensures { IfOk result (λ spans. spans ≡ pass_spans tables.now handed.now up.now (pass_of pass.now)) }
{
    let last = last_reads(alloc, pass, up, instructions)?;
    let mut spans = Spans::new(alloc);
    push_handed(&mut spans, handed, &last)?;
    push_steps(&mut spans, &pass.given, tables, &last)?;
    push_steps(&mut spans, &pass.steps, tables, &last)?;
    Ok(spans)
}

/// Registers for the values of a pass of so many instructions, to which the values of a layout are handed, and which
/// hands up those of another: as few as their spans allow.
pub(crate) fn plan_of(
    alloc: Global,
    pass: &Pass,
    handed: &Layout,
    up: &Layout,
    tables: &Tables,
    instructions: usize,
) -> Result<RegPlan, NoMemory>
    requires { CanBePlanned tables.now handed.now (pass_of pass.now) instructions }
    ensures { IfOk result (IsPlanOf (pass_spans tables.now handed.now up.now (pass_of pass.now))) }
{
    let spans = spans_of(alloc, pass, handed, up, tables, instructions)?;
    RegPlan::of(alloc, &spans)
}

/// A plan for no values.
pub(crate) fn no_plan(alloc: Global) -> Result<RegPlan, NoMemory> {
    RegPlan::of(alloc, &Spans::new(alloc))
}

/// No object of a program has values of more than 8 numbers.
pub(crate) fn values_are_few(f: &Flat)
    ensures { HaveFewValues f.now.objects }
{
    for object in f.objects.as_slice() {
        let few = object.values.len() <= 8;
        prove!(few);
    }
}
