//! The instructions of a pass.
ghost use Rattle.std.specs.Prelude.{◌≡◌, ◌≤◌, ◌<◌, ◌+◌, ◌*◌, ◌++◌, ◌&&◌, not, ◌∷◌, [], Option, map, length, IfOk, OnOk};
ghost use Rattle.flat_ir.specs.Program.{program_of, step_at};
ghost use Rattle.split_model.specs.Crossing.{is_among, is_at_hand, is_read_by};
ghost use Rattle.split_model.specs.Marked.{is_marked, AreMarked};
ghost use Rattle.split_model.specs.Split.{is_post};
ghost use Rattle.split_model.specs.Layouts.{values_below, values_of};
ghost use Rattle.switch_ir.specs.Code.{pass_step_of};
ghost use Rattle.switch_ir.specs.Emitted.{placed, steps_of, highest_of, given_stage, only_value};
ghost use Rattle.switch_ir.specs.Emitting.{stage_in};

use crate::code::{PassStep, Steps};
use flat_ir::{Flat, ValueId};
use gal_io::NoMemory;
use split_model::{Reader, Split, ValueSet, is_at_hand, is_value, read_by};
use std::alloc::Global;

/// Which instructions: those that the pass over an arriving packet computes, or those that the pass over a packet that
/// comes down computes.
#[derive(Clone, Copy)]
pub(crate) enum Role {
    Pre,
    Post,
}

impl Role {
    /// The stage of an instruction in this role, where it has the role.
    pub fn stage(self, s: &Split, instruction: usize) -> Option<u32>
        ensures { result ≡ stage_in self s.now instruction }
    {
        match self {
            Role::Pre => s.stage_before(instruction),
            Role::Post => s.stage_after(instruction),
        }
    }
}

// Whether a value is one of these two.
fn is_send_or_port(f: &Flat, value: ValueId) -> bool
    ensures { result ≡ is_among value ((program_of f.now).send ∷ (program_of f.now).port ∷ []) }
{
    is_value(value, f.out.send) || is_value(value, f.out.port)
}

// Whether an instruction is a const or a field that the server leaves, isn't `send` or `port`, and postprocessing reads
// it and doesn't compute it.
fn is_given(f: &Flat, s: &Split, read: &ValueSet, i: usize) -> bool
    requires within { i < length f.now.code }
    requires few_instructions { length f.now.code ≤ 4096 }
    ensures { result ≡ (is_at_hand (program_of f.now) s.now (step_at (program_of f.now) i).work
        && (not (is_post s.now i)
        && (not (is_among (only_value i) ((program_of f.now).send ∷ (program_of f.now).port ∷ []))
        && is_marked read.now (only_value i)))) }
{
    let value = ValueId {
        instruction: i as u32,
        result: 0,
    };
    is_at_hand(f, s, &f.code.as_slice()[i].kind)
        && !s.is_post(i)
        && !is_send_or_port(f, value)
        && read.has(value)
}

// Stage 0, where postprocessing is given an instruction's value from the code or the packet.
fn given_stage(f: &Flat, s: &Split, read: &ValueSet, i: usize) -> Option<u32>
    requires within { i < length f.now.code }
    requires few_instructions { length f.now.code ≤ 4096 }
    requires marked { AreMarked (length f.now.code) (is_read_by (program_of f.now) (is_post s.now)) read.now }
    ensures { result ≡ given_stage (program_of f.now) s.now i }
{
    if is_given(f, s, read, i) {
        Some(0)
    } else {
        None
    }
}

// The number of the first value behind those of instruction `i`.
fn number_behind(f: &Flat, i: usize, number: u32) -> u32
    requires within { i < length f.now.code }
    requires few_instructions { length f.now.code ≤ 4096 }
    requires numbered { number ≡ length (values_below (program_of f.now) i) }
    requires bounded_number { number ≤ 9 * i }
    ensures numbered { result ≡ length (values_below (program_of f.now) (i + 1)) }
    ensures bounded { result ≤ 9 * (i + 1) }
{
    number + f.code.as_slice()[i].kind.result_count(f.objects.as_slice())
}

// Puts instruction `i` last, where it has a stage.
fn put_step(
    alloc: Global,
    f: &Flat,
    i: usize,
    number: u32,
    stage: Option<u32>,
    steps: &mut Steps,
) -> Result<(), NoMemory>
    requires within { i < length f.now.code }
    requires few_instructions { length f.now.code ≤ 4096 }
    requires numbered { number ≡ length (values_below (program_of f.now) i) }
    ensures { OnOk result (map pass_step_of steps.new ≡ map pass_step_of steps.old ++ placed (program_of f.now) i stage) }
{
    if let Some(stage) = stage {
        let kind = f.code.as_slice()[i].kind.copy(alloc)?;
        steps.push(PassStep {
            instruction: i as u32,
            stage,
            first: number,
            kind,
        })?;
    }
    Ok(())
}

/// The instructions of a role.
pub(crate) fn steps(alloc: Global, f: &Flat, s: &Split, role: Role) -> Result<Steps, NoMemory>
    requires few_instructions { length f.now.code ≤ 4096 }
    ensures { IfOk result (λ made. map pass_step_of made ≡ steps_of (program_of f.now) (stage_in role s.now)) }
{
    let mut made = Steps::new(alloc);
    let mut number = 0;
    for i in 0..f.code.len() {
        put_step(alloc, f, i, number, role.stage(s, i), &mut made)?;
        number = number_behind(f, i, number);
    }
    Ok(made)
}

/// The instructions whose values postprocessing is given from the code and the packet.
pub(crate) fn given_steps(alloc: Global, f: &Flat, s: &Split) -> Result<Steps, NoMemory>
    requires few_instructions { length f.now.code ≤ 4096 }
    ensures { IfOk result (λ made.
        map pass_step_of made ≡ steps_of (program_of f.now) (given_stage (program_of f.now) s.now)) }
{
    let read = read_by(alloc, f, s, Reader::Post)?;
    let mut made = Steps::new(alloc);
    let mut number = 0;
    for i in 0..f.code.len() {
        put_step(alloc, f, i, number, given_stage(f, s, &read, i), &mut made)?;
        number = number_behind(f, i, number);
    }
    Ok(made)
}

/// How many values a program has.
pub(crate) fn values(f: &Flat) -> u32
    requires few_instructions { length f.now.code ≤ 4096 }
    ensures { result ≡ length (values_of (program_of f.now)) }
{
    let mut number = 0;
    for i in 0..f.code.len() {
        number = number_behind(f, i, number);
    }
    number
}

/// The highest stage of a role, 0 where no instruction has it.
pub(crate) fn highest(f: &Flat, s: &Split, role: Role) -> u32
    ensures { result ≡ highest_of (stage_in role s.now) (length (program_of f.now).code) }
{
    let mut highest = 0;
    for i in 0..f.code.len() {
        highest = role.stage(s, i).unwrap_or(0).max(highest);
    }
    highest
}
