//! Stages as depths.
ghost use Rattle.std.specs.Prelude.{◌≡◌, ℕ, ◌<◌, ◌-◌, ◌^◌, ◌≤◌, ◌++◌, max, length, IfOk, slice_index, slice_index_or};
ghost use Rattle.std.specs.Prelude.{false, if◌then◌else◌};
ghost use Rattle.flat_ir.specs.Program.{program_of, work_of, step_of, operands};
ghost use Rattle.flat_ir.specs.WellFormed.{IsWellFormed};
ghost use Rattle.flat_ir.specs.Stages.{deepest, depth_of, IsDepths};

use crate::marks::{Depths, Marks};
use flat_ir::{Flat, Instr, InstrKind, ValueId};
use gal_io::NoMemory;
use std::alloc::Global;

// The depth of this value's instruction where it is a member, else 0.
fn depth_at(members: &Marks, depths: &Depths, value: ValueId) -> u32
    ensures { result ≡ (if slice_index_or members.now value.instruction false
        then slice_index depths.now value.instruction else 0) }
{
    let i = value.instruction as usize;
    if members.at(i) { depths.at(i) } else { 0 }
}

// The greatest depth among the operands.
fn deepest_operand(members: &Marks, depths: &Depths, kind: &InstrKind) -> u32
    ensures { result ≡ deepest members.now depths.now (operands (work_of kind.now)) }
{
    let mut found = 0;
    for place in 0..kind.operand_count() {
        found = found.max(depth_at(members, depths, kind.operand(place)));
    }
    found
}

// The depth of a member, by the depths so far.
fn depth_of(one: &Instr, members: &Marks, depths: &Depths) -> u32
    requires { (j : ℕ) → slice_index depths.now j < 2 ^ 32 - 1 }
    ensures { result ≡ depth_of members.now depths.now (step_of one.now) }
{
    if one.kind.is_input() {
        0
    } else {
        deepest_operand(members, depths, &one.kind) + 1
    }
}

// The depth of instruction `i`, and 0 where it is no member.
fn next_depth(i: usize, one: &Instr, members: &Marks, depths: &Depths) -> u32
    requires { (j : ℕ) → slice_index depths.now j < 2 ^ 32 - 1 }
    ensures { result ≡ (if slice_index_or members.now i false then depth_of members.now depths.now (step_of one.now)
        else 0) }
{
    if members.at(i) {
        depth_of(one, members, depths)
    } else {
        0
    }
}

/// The depths of the members, and 0 for every other instruction. It takes one step an operand.
pub fn depths(alloc: Global, f: &Flat, members: &Marks) -> Result<Depths, NoMemory>
    requires formed { IsWellFormed (program_of f.now) }
    requires few_instructions { length f.now.code ≤ 4096 }
    ensures { IfOk result (λ depths. IsDepths (program_of f.now) members.now depths) }
{
    let code = f.code.as_slice();
    let mut depths = Depths::new(alloc);
    for i in 0..code.len() {
        let depth = next_depth(i, &code[i], members, &depths);
        depths.push(depth)?;
    }
    Ok(depths)
}
