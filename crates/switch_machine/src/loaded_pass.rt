//! The pass of a side of code that is loaded.
ghost use Rattle.std.specs.Prelude.{◌≡◌, ℕ, length, vec_capacity, IfOk, None};
ghost use Rattle.std.specs.List.{AllByRecursion as Each};
ghost use Rattle.switch_ir.specs.Passes.{Code};
ghost use Rattle.switch_ir.specs.Code.{pass_of};
ghost use Rattle.switch_ir.specs.Sound.{CanStep};
ghost use Rattle.switch_machine.specs.ActivePasses.{active_in, active_prop, AreActivePasses};
ghost use Rattle.switch_machine.specs.Ready.{can_all_prop, hold_prop, CanAll, HoldResults};
ghost use Rattle.switch_machine.specs.Sides.{staging};

use crate::active_pass::ActivePass;
use crate::numbering::Numbering;
use crate::ready::ReadyStages;
use crate::sides::Side;
use gal_io::NoMemory;
use split_model::Crossing;
use std::alloc::Global;
use std::collections::BTreeMap;
use switch_ir::{Pass, Table};
use transfer_header::Regs;

/// The pass of a side: its instructions stage by stage, the numbers of their values, where it is computed, and the passes
/// that are under way.
#[derive(Drop)]
pub(crate) struct LoadedPass {
    pub side: Side,
    pub stages: ReadyStages,
    pub numbering: Numbering,
    pub registers: Regs,
    /// Room for the results of a stage.
    pub results: Vec<u64>,
    /// Which blocks are live: a mark for the root, and one for each block.
    pub marks: Vec<bool>,
    /// The passes under way, by the numbers of their packets.
    pub active: BTreeMap<u32, ActivePass>,
    ghost can: { CanAll stages } by { can_all_prop stages },
    ghost room: { HoldResults stages (vec_capacity results) } by { hold_prop stages (vec_capacity results) },
    ghost are_active: { AreActivePasses (length stages) (length registers.numbers) (active_in active) } by { active_prop (length stages) (length registers.numbers) (active_in active) },
}

impl LoadedPass {
    ghost use Rattle.switch_machine.specs.LoadedPasses.{IsMadeBy};

    /// The pass of a side of code, which looks up these tables. The values of a layout are handed to it.
    pub fn of(
        alloc: Global,
        side: Side,
        tables: &[Table],
        handed: &[Crossing],
        pass: &Pass,
    ) -> Result<LoadedPass, NoMemory>
        requires { Each CanStep (pass_of pass.now).steps }
        ensures made { (code : Code) → code.tables ≡ tables.now → (staging side code).handed ≡ handed.now
            → (staging side code).code ≡ pass_of pass.now → IfOk result (IsMadeBy side code pass.now.plan) }
        ensures none { IfOk result (λ made. (n : ℕ) → active_in made.active n ≡ None) }
    {
        let numbering = Numbering::of(alloc, tables, handed, pass)?;
        let stages = ReadyStages::of(alloc, &pass.steps, pass.highest, &numbering, &pass.plan)?;
        let registers = Regs::planned(alloc, pass.plan.copy(alloc)?)?;
        let results = Vec::with_capacity(alloc, stages.most())?;
        let marks = vec![in alloc; false; pass.blocks.as_slice().len() + 1]?;
        Ok(LoadedPass {
            side,
            stages,
            numbering,
            registers,
            results,
            marks,
            active: BTreeMap::new(alloc),
        })
    }
}
