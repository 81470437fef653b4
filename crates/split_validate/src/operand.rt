//! What rules forbid of the operands of an instruction.
ghost use Rattle.std.specs.Prelude.{◌≡◌};
ghost use Rattle.flat_ir.specs.Kinds.{needed};
ghost use Rattle.flat_ir.specs.Program.{work_of, operands};
ghost use Rattle.split_model.specs.Legal.{is_not_lower};
ghost use Rattle.split_validate.specs.Flaws.{any_flawed, has_flaw, stage_in};

use flat_ir::InstrKind;
use split_model::Split;

/// A pass over the switch.
#[derive(Clone, Copy)]
pub(crate) enum Pass {
    Before,
    After,
}

impl Pass {
    /// The stage of an instruction in this pass, where it is computed there.
    pub(crate) fn stage(self, s: &Split, instruction: usize) -> Option<u32>
        ensures { result ≡ stage_in self s.now instruction }
    {
        match self {
            Pass::Before => s.stage_before(instruction),
            Pass::After => s.stage_after(instruction),
        }
    }
}

/// What a rule forbids of an operand.
#[derive(Clone, Copy)]
pub(crate) enum Flaw {
    /// Preprocessing doesn't compute it.
    NotBefore,
    /// Preprocessing doesn't hand it up.
    NotCarried,
    /// Postprocessing computes it.
    InPost,
    /// The pass computes it at this stage or a later one.
    NotBelow(Pass, u32),
}

// Whether the stage of an operand is there and isn't below another one.
fn is_not_lower(stage: Option<u32>, own: u32) -> bool
    ensures { result ≡ is_not_lower stage own }
{
    match stage {
        Some(other) => other >= own,
        None => false,
    }
}

impl Flaw {
    // Whether an operand that is a result of this instruction has the flaw.
    fn is_of(self, s: &Split, instruction: usize) -> bool
        ensures { result ≡ has_flaw self s.now instruction }
    {
        match self {
            Flaw::NotBefore => !s.is_pre(instruction),
            Flaw::NotCarried => !s.is_carried(instruction),
            Flaw::InPost => s.is_post(instruction),
            Flaw::NotBelow(pass, own) => is_not_lower(pass.stage(s, instruction), own),
        }
    }

    /// Whether an operand of an instruction has the flaw.
    pub(crate) fn is_in(self, s: &Split, kind: &InstrKind) -> bool
        ensures { result ≡ any_flawed self s.now (operands (work_of kind.now)) }
    {
        for place in 0..kind.operand_count() {
            if self.is_of(s, kind.operand(place).instruction as usize) {
                return true;
            }
        }
        false
    }

    /// The same of the operands other than the sides of a select.
    pub(crate) fn is_in_needed(self, s: &Split, kind: &InstrKind) -> bool
        ensures { result ≡ any_flawed self s.now (needed (work_of kind.now)) }
    {
        match kind {
            InstrKind::Select { cond, .. } => self.is_of(s, cond.instruction as usize),
            _ => self.is_in(s, kind),
        }
    }
}
