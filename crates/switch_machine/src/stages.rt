//! The instructions of a pass, stage by stage.
ghost use Rattle.std.specs.Prelude.{◌≡◌, ℕ, ◌+◌, ◌≤◌, ◌<◌, ◌==◌, ◌++◌, ◌∷◌, [], length, map, slice_index_or, IfOk};
ghost use Rattle.std.specs.Prelude.{OnOk, if◌then◌else◌};
ghost use Rattle.switch_ir.specs.Code.{pass_step_of};
ghost use Rattle.switch_machine.specs.Staged.{stage_at, AreStages};

use gal_io::NoMemory;
use std::alloc::Global;
use switch_ir::{PassStep, Steps};

/// The instructions of a pass, in a list for each stage up to the highest.
pub(crate) fn stages_of(alloc: Global, steps: &Steps, highest: u32) -> Result<Vec<Steps>, NoMemory>
    ensures { IfOk result (λ stages. AreStages (map pass_step_of steps.now) highest stages.items) }
{
    let mut stages = empty_stages(alloc, highest as usize + 1)?;
    for step in steps.as_slice() {
        place(alloc, &mut stages, step)?;
    }
    Ok(stages)
}

// So many stages without instructions.
fn empty_stages(alloc: Global, count: usize) -> Result<Vec<Steps>, NoMemory>
    ensures count { IfOk result (λ stages. length stages.items ≡ count) }
    ensures empty { IfOk result (λ stages. (t : ℕ) → slice_index_or stages.items t [] ≡ []) }
{
    let mut stages = Vec::new(alloc);
    for _ in 0..count {
        stages.push(Steps::new(alloc))?;
    }
    Ok(stages)
}

// Puts a copy of an instruction last in its stage, if there is such a stage.
fn place(alloc: Global, stages: &mut Vec<Steps>, step: &PassStep) -> Result<(), NoMemory>
    ensures placed { OnOk result ((t : ℕ) → t < length stages.old.items → stage_at stages.new.items t
        ≡ stage_at stages.old.items t ++ (if step.now.stage == t then pass_step_of step.now ∷ [] else [])) }
    ensures count { OnOk result (length stages.new.items ≡ length stages.old.items) }
{
    let stage = step.stage as usize;
    if stage < stages.len() {
        let copy = step.copy(alloc)?;
        stages[stage].push(copy)?;
    }
    Ok(())
}
