//! Which values decide whether a write takes effect.
ghost use Rattle.std.specs.Prelude.{◌≡◌, ◌+◌, ◌-◌, ◌<◌, ◌≤◌, true, length, IfOk, OnOk};
ghost use Rattle.flat_ir.specs.Program.{program_of, is_among};
ghost use Rattle.flat_ir.specs.WellFormed.{IsWellFormed};
ghost use Rattle.flat_ir.specs.Guards.{guards_write};
ghost use Rattle.flat_ir.specs.Guarding.{AreWriteBlocks, AreGuardsFrom};

use crate::program::{Flat, ValueId};
use gal_io::NoMemory;
use std::alloc::Global;

// Marks the block of instruction `i` where it is a write.
fn mark_block(f: &Flat, i: usize, marks: &mut Vec<bool>)
    requires inside { i < length f.now.code }
    requires so_far { AreWriteBlocks (program_of f.now) i marks.old.items }
    ensures { AreWriteBlocks (program_of f.now) (i + 1) marks.new.items }
{
    let one = &f.code.as_slice()[i];
    let block = one.block as usize;
    if one.kind.is_write() && block < marks.len() {
        marks[block] = true;
    }
}

// The blocks in which a write stands, the root first.
fn write_blocks(alloc: Global, f: &Flat) -> Result<Vec<bool>, NoMemory>
    ensures { IfOk result (λ marks. AreWriteBlocks (program_of f.now) (length f.now.code) marks.items) }
{
    let mut marks = vec![in alloc; false; f.blocks.as_slice().len() + 1]?;
    for i in 0..f.code.len() {
        mark_block(f, i, &mut marks);
    }
    Ok(marks)
}

// Hands what is known of block `b` to the block above it, and notes its condition.
fn lift(
    f: &Flat,
    b: usize,
    covering: &mut Vec<bool>,
    found: &mut Vec<ValueId>,
) -> Result<(), NoMemory>
    requires formed { IsWellFormed (program_of f.now) }
    requires inside { (0 < b) × (b ≤ length f.now.blocks) }
    requires from { AreGuardsFrom (program_of f.now) b covering.old.items found.old.items }
    ensures { OnOk result (AreGuardsFrom (program_of f.now) (b - 1) covering.new.items found.new.items) }
{
    if covering[b] {
        let block = f.blocks.as_slice()[b - 1];
        covering[block.parent as usize] = true;
        found.push(block.cond)?;
    }
    Ok(())
}

/// The conditions of the blocks in which writes stand, and of those above them. It takes one step an instruction and a
/// block.
pub fn write_guards(alloc: Global, f: &Flat) -> Result<Vec<ValueId>, NoMemory>
    requires { IsWellFormed (program_of f.now) }
    ensures exact { IfOk result (λ found.
        (v : ValueId) → is_among v found.items ≡ guards_write (program_of f.now) v) }
    ensures inside { IfOk result (λ found.
        (v : ValueId) → is_among v found.items ≡ true → v.instruction < length f.now.code) }
{
    let mut covering = write_blocks(alloc, f)?;
    let mut found = Vec::new(alloc);
    let mut b = f.blocks.len();
    while b > 0 {
        lift(f, b, &mut covering, &mut found)?;
        b -= 1;
    }
    Ok(found)
}
