//! Which values decide whether a write takes effect.
ghost use Rattle.std.specs.Prelude.{◌<◌, ◌^◌, length, IfOk};
ghost use Rattle.flat_ir.specs.Program.{program_of};
ghost use Rattle.flat_ir.specs.WellFormed.{IsWellFormed};
ghost use Rattle.split_model.specs.Crossing.{guards_write};
ghost use Rattle.split_model.specs.Marked.{AreMarked};

use crate::values::ValueSet;
use flat_ir::{Flat, write_guards};
use gal_io::NoMemory;
use std::alloc::Global;

/// The conditions of the blocks in which writes stand, and of those above them. It takes one step an instruction and a
/// block, and hangs on no split.
pub fn guard_values(alloc: Global, f: &Flat) -> Result<ValueSet, NoMemory>
    requires formed { IsWellFormed (program_of f.now) }
    requires few_instructions { length f.now.code < 2 ^ 32 }
    ensures { IfOk result (λ set. AreMarked (length f.now.code) (guards_write (program_of f.now)) set) }
{
    let found = write_guards(alloc, f)?;
    let mut guards = ValueSet::new(alloc, f.code.len())?;
    guards.insert_all(&found);
    Ok(guards)
}
