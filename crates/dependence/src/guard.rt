//! Which instructions decide whether a write takes effect.
ghost use Rattle.std.specs.Prelude.{IfOk};
ghost use Rattle.flat_ir.specs.Program.{program_of};
ghost use Rattle.flat_ir.specs.WellFormed.{IsWellFormed};
ghost use Rattle.dependence.specs.Guards.{AreGuards};

use crate::marks::Marks;
use flat_ir::{Flat, write_guards};
use gal_io::NoMemory;
use std::alloc::Global;

/// The guards of writes: the instructions that have a result in the block chain of a write. It takes one step an
/// instruction and a block.
pub fn guards(alloc: Global, f: &Flat) -> Result<Marks, NoMemory>
    requires { IsWellFormed (program_of f.now) }
    ensures { IfOk result (λ marks. AreGuards (program_of f.now) marks) }
{
    let found = write_guards(alloc, f)?;
    let mut guards = Marks::unset(alloc, f.code.len())?;
    for value in &found {
        guards.set(value.instruction as usize, true);
    }
    Ok(guards)
}
