//! The blocks in which preprocessing leaves work.
ghost use Rattle.std.specs.Prelude.{◌≡◌, ◌<◌, ◌+◌, ◌&&◌, not, false, length, slice_index_or, IfOk, OnOk};
ghost use Rattle.flat_ir.specs.Program.{program_of};
ghost use Rattle.flat_ir.specs.WellFormed.{IsWellFormed};
ghost use Rattle.split_model.specs.Split.{is_pre};
ghost use Rattle.switch_ir.specs.Emitted.{rest_below};
ghost use Rattle.switch_ir.specs.Emitting.{AreMarks};

use flat_ir::Flat;
use gal_io::NoMemory;
use split_model::Split;
use std::alloc::Global;

// Whether instruction `i` is outside preprocessing, and its block isn't marked.
fn is_new(s: &Split, i: usize, block: u32, marks: &[bool]) -> bool
    requires { block < length marks.now }
    ensures { result ≡ (not (is_pre s.now i) && not (slice_index_or marks.now block false)) }
{
    !s.is_pre(i) && !marks[block as usize]
}

// Puts the block of instruction `i` last, where the instruction is outside preprocessing and the block isn't there yet.
fn put_block(
    f: &Flat,
    s: &Split,
    i: usize,
    marks: &mut Vec<bool>,
    rest: &mut Vec<u32>,
) -> Result<(), NoMemory>
    requires within { i < length f.now.code }
    requires formed { IsWellFormed (program_of f.now) }
    requires so_far { rest.old.items ≡ rest_below (program_of f.now) s.now i }
    requires marks { AreMarks (length f.now.blocks + 1) rest.old.items marks.old.items }
    ensures rest { OnOk result (rest.new.items ≡ rest_below (program_of f.now) s.now (i + 1)) }
    ensures marks { OnOk result (AreMarks (length f.now.blocks + 1) rest.new.items marks.new.items) }
{
    let block = f.code.as_slice()[i].block;
    if is_new(s, i, block, marks) {
        marks[block as usize] = true;
        rest.push(block)?;
    }
    Ok(())
}

/// The blocks that hold an instruction outside preprocessing, each once.
pub(crate) fn rest(alloc: Global, f: &Flat, s: &Split) -> Result<Vec<u32>, NoMemory>
    requires { IsWellFormed (program_of f.now) }
    ensures { IfOk result (λ rest. rest.items ≡ rest_below (program_of f.now) s.now (length (program_of f.now).code)) }
{
    let mut marks = vec![in alloc; false; f.blocks.as_slice().len() + 1]?;
    let mut rest = Vec::new(alloc);
    for i in 0..f.code.len() {
        put_block(f, s, i, &mut marks, &mut rest)?;
    }
    Ok(rest)
}
