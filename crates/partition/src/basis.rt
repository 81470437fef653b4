//! What is found once of a program, since it hangs on no split.
ghost use Rattle.std.specs.Prelude.{IfOk};
ghost use Rattle.flat_ir.specs.Program.{program_of};
ghost use Rattle.split_model.specs.Bounds.{IsBounded};
ghost use Rattle.partition.specs.Basis.{IsBasis};

use dependence::{Marks, Uses, guards};
use flat_ir::Flat;
use gal_io::NoMemory;
use split_model::{ValueSet, guard_values};
use std::alloc::Global;

/// What all splits of a program go by.
#[derive(Drop)]
pub(crate) struct Basis {
    /// The instructions that read the results of each.
    pub(crate) uses: Uses,
    /// The instructions that decide whether a write takes effect.
    pub(crate) guards: Marks,
    /// The values that do.
    pub(crate) guard_values: ValueSet,
}

impl Basis {
    /// What the search knows of a program at first. Finding it takes one step an operand and a block.
    pub(crate) fn of(alloc: Global, f: &Flat) -> Result<Basis, NoMemory>
        requires { IsBounded (program_of f.now) }
        ensures { IfOk result (λ basis. IsBasis f.now basis) }
    {
        Ok(Basis {
            uses: Uses::of(alloc, f)?,
            guards: guards(alloc, f)?,
            guard_values: guard_values(alloc, f)?,
        })
    }
}
