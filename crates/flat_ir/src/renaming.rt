//! Instructions whose operands have other names.
ghost use Rattle.std.specs.Prelude.{◌≡◌, map, IfOk};
ghost use Rattle.flat_ir.specs.declared.program.ValueId.{ValueId as Value};
ghost use Rattle.flat_ir.specs.Program.{work_of};
ghost use Rattle.flat_ir.specs.Renaming.{renamed};

use crate::program::{InstrKind, ValueId};
use gal_io::NoMemory;
use std::alloc::Global;

/// Another name for each value.
pub trait Renaming {
    ghost use Rattle.flat_ir.specs.declared.program.ValueId.{ValueId as Value};

    ghost names: { Self → Value → Value };

    /// The other name of a value.
    fn name(&self, value: ValueId) -> ValueId
        ensures { result ≡ names self.now value };
}

// The other names of values.
fn names_of<N: Renaming>(
    alloc: Global,
    renaming: &N,
    values: &[ValueId],
) -> Result<Vec<ValueId>, NoMemory>
    ensures { IfOk result (λ made. made.items ≡ map (N.names renaming.now) values.now) }
{
    let mut made = Vec::with_capacity(alloc, values.len())?;
    for value in values {
        made.push(renaming.name(*value))?;
    }
    Ok(made)
}

impl InstrKind {
    /// The same work, with another name for each operand.
    pub fn renamed<N: Renaming>(&self, alloc: Global, renaming: &N) -> Result<InstrKind, NoMemory>
        ensures { IfOk result (λ made. work_of made ≡ renamed (N.names renaming.now) (work_of self.now)) }
    {
        Ok(match self {
            InstrKind::Const(width, number) => InstrKind::Const(*width, *number),
            InstrKind::Field(field) => InstrKind::Field(*field),
            InstrKind::Apply { op, width, args } => InstrKind::Apply {
                op: *op,
                width: *width,
                args: names_of(alloc, renaming, args)?,
            },
            InstrKind::Shift { op, width, arg, by } => InstrKind::Shift {
                op: *op,
                width: *width,
                arg: renaming.name(*arg),
                by: *by,
            },
            InstrKind::Select {
                width,
                cond,
                first,
                second,
            } => InstrKind::Select {
                width: *width,
                cond: renaming.name(*cond),
                first: renaming.name(*first),
                second: renaming.name(*second),
            },
            InstrKind::Byte(index) => InstrKind::Byte(renaming.name(*index)),
            InstrKind::Look { object, keys } => InstrKind::Look {
                object: *object,
                keys: names_of(alloc, renaming, keys)?,
            },
            InstrKind::Put {
                object,
                keys,
                values,
            } => InstrKind::Put {
                object: *object,
                keys: names_of(alloc, renaming, keys)?,
                values: names_of(alloc, renaming, values)?,
            },
            InstrKind::Del { object, keys } => InstrKind::Del {
                object: *object,
                keys: names_of(alloc, renaming, keys)?,
            },
        })
    }
}
