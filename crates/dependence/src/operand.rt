//! What a scan asks of one instruction.
ghost use Rattle.std.specs.Prelude.{◌≡◌};
ghost use Rattle.flat_ir.specs.Program.{work_of, operands};
ghost use Rattle.flat_ir.specs.Kinds.{needed};
ghost use Rattle.dependence.specs.Marked.{are_marked};

use crate::marks::Marks;
use flat_ir::InstrKind;

/// Whether each operand is of a marked instruction.
pub(crate) fn has_operands(marks: &Marks, kind: &InstrKind) -> bool
    ensures { result ≡ are_marked marks.now (operands (work_of kind.now)) }
{
    for place in 0..kind.operand_count() {
        if !marks.at(kind.operand(place).instruction as usize) {
            return false;
        }
    }
    true
}

/// Whether each operand but the sides of a select is of a marked instruction.
pub(crate) fn has_needs(marks: &Marks, kind: &InstrKind) -> bool
    ensures { result ≡ are_marked marks.now (needed (work_of kind.now)) }
{
    match kind {
        InstrKind::Select { cond, .. } => marks.at(cond.instruction as usize),
        _ => has_operands(marks, kind),
    }
}
