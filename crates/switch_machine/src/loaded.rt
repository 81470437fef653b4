//! Code that is loaded.
ghost use Rattle.std.specs.Prelude.{◌≡◌, ◌<◌, ◌^◌, ℕ, IfOk, None};
ghost use Rattle.switch_ir.specs.Code.{code_of, pass_of};
ghost use Rattle.switch_ir.specs.Once.{can_be_run_prop};
ghost use Rattle.switch_ir.specs.Sound.{CanBeRun};
ghost use Rattle.switch_ir.specs.UnderWay.{none_under_way};
ghost use Rattle.switch_machine.specs.ActivePasses.{active_in};
ghost use Rattle.switch_machine.specs.Ranges.{ordered_prop, AreOrdered};
ghost use Rattle.switch_machine.specs.Ready.{ready_prop, AreReady};
ghost use Rattle.switch_machine.specs.LoadedPasses.{made_prop, IsMadeBy};
ghost use Rattle.switch_machine.specs.declared.sides.Side.TheVariants.{Before, Behind};

use crate::loaded_pass::LoadedPass;
use crate::ready::ReadyStages;
use crate::sides::Side;
use gal_io::NoMemory;
use std::alloc::Global;
use switch_ir::SwitchCode;

/// Code with the passes of both sides.
#[derive(Drop)]
pub(crate) struct Loaded {
    pub code: SwitchCode,
    pub before: LoadedPass,
    pub behind: LoadedPass,
    /// What postprocessing is given from the code and the packet, in one stage.
    pub given: ReadyStages,
    ghost can: { CanBeRun (code_of code) } by { can_be_run_prop (code_of code) },
    ghost few: { code.values < 2 ^ 32 },
    ghost ordered: { AreOrdered (code_of code) } by { ordered_prop (code_of code) },
    ghost pre: { IsMadeBy Before (code_of code) code.pre.plan before } by { made_prop Before (code_of code) code.pre.plan before },
    ghost post: { IsMadeBy Behind (code_of code) code.post.plan behind } by { made_prop Behind (code_of code) code.post.plan behind },
    ghost given_stage: { AreReady behind.numbering code.post.plan (pass_of code.post).given 0 given } by { ready_prop behind.numbering code.post.plan (pass_of code.post).given 0 given },
}

impl Loaded {
    ghost use Rattle.std.specs.Prelude.{Some};
    ghost use Rattle.switch_machine.specs.UnderWay.{under_way};

    /// A copy of some code, with no pass under way.
    pub fn new(alloc: Global, code: &SwitchCode) -> Result<Loaded, NoMemory>
        requires can { CanBeRun (code_of code.now) }
        requires ordered { AreOrdered (code_of code.now) }
        ensures code { IfOk result (λ loaded. code_of loaded.code ≡ code_of code.now) }
        ensures passes { IfOk result (λ loaded. under_way (Some loaded) ≡ none_under_way) }
    {
        let code = code.copy(alloc)?;
        let before = before(alloc, &code)?;
        let (behind, given) = behind(alloc, &code)?;
        Ok(Loaded {
            code,
            before,
            behind,
            given,
        })
    }
}

// The pass of preprocessing.
fn before(alloc: Global, code: &SwitchCode) -> Result<LoadedPass, NoMemory>
    requires { CanBeRun (code_of code.now) }
    ensures made { IfOk result (IsMadeBy Before (code_of code.now) code.now.pre.plan) }
    ensures none { IfOk result (λ made. (n : ℕ) → active_in made.active n ≡ None) }
{
    LoadedPass::of(alloc, Side::Before, code.tables.as_slice(), &[], &code.pre)
}

// The pass of postprocessing, and what it is given from the code and the packet, in one stage.
fn behind(alloc: Global, code: &SwitchCode) -> Result<(LoadedPass, ReadyStages), NoMemory>
    requires { CanBeRun (code_of code.now) }
    ensures made { IfOk result (λ both. IsMadeBy Behind (code_of code.now) code.now.post.plan both.0) }
    ensures none { IfOk result (λ both. (n : ℕ) → active_in both.0.active n ≡ None) }
    ensures given { IfOk result
        (λ both. AreReady both.0.numbering code.now.post.plan (pass_of code.now.post).given 0 both.1) }
{
    let (tables, down) = (code.tables.as_slice(), code.down.as_slice());
    let pass = LoadedPass::of(alloc, Side::Behind, tables, down, &code.post)?;
    let given = ReadyStages::of(alloc, &code.post.given, 0, &pass.numbering, &code.post.plan)?;
    Ok((pass, given))
}
