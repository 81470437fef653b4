//! The code of a switch.
ghost use Rattle.std.specs.Prelude.{◌≡◌, [], map, IfOk};
ghost use Rattle.flat_ir.specs.Program.{work_of};
ghost use Rattle.transfer_header.specs.Plans.{IsPlanOf, plan_prop};
ghost use Rattle.switch_ir.specs.Passes.{pass_step_of, pass_of};
ghost use Rattle.switch_ir.specs.Spans.{pass_spans};

use flat_ir::{Blocks, InstrKind, Out, RegPlan};
use gal_io::{CopyIn, Items, NoMemory};
use split_model::Layout;
use state_store::ObjectDecl;
use std::alloc::Global;

/// An instruction of a pass.
#[derive(Drop)]
pub struct PassStep {
    /// The place in the code of the flat program, from 0.
    pub instruction: u32,
    /// The stage in which it is computed. Those of a stage read what was there before the stage.
    pub stage: u32,
    /// The number of its first value: how many values of the flat program stand before it.
    pub first: u32,
    pub kind: InstrKind,
}

impl PassStep {
    /// Another one that does the same.
    pub fn copy(&self, alloc: Global) -> Result<Self, NoMemory>
        ensures { IfOk result (λ made. pass_step_of made ≡ pass_step_of self.now) }
    {
        Ok(PassStep {
            instruction: self.instruction,
            stage: self.stage,
            first: self.first,
            kind: self.kind.copy(alloc)?,
        })
    }
}

/// Instructions of a pass, in order of instruction.
pub type Steps = Items<PassStep>;

// Instructions that do the same, in memory of their own.
fn copy_steps(alloc: Global, steps: &[PassStep]) -> Result<Steps, NoMemory>
    ensures { IfOk result (λ made. map pass_step_of made ≡ map pass_step_of steps.now) }
{
    let mut made = Steps::new(alloc);
    for step in steps {
        made.push(step.copy(alloc)?)?;
    }
    Ok(made)
}

/// A pass over a packet, before the server or after it.
#[derive(Drop)]
pub struct Pass {
    pub steps: Steps,
    /// The consts and fields that postprocessing reads and has from the code and the packet. Preprocessing has none.
    pub given: Steps,
    /// The blocks of the program.
    pub blocks: Blocks,
    /// The blocks that hold an instruction outside preprocessing, 0 being the root. Postprocessing has none.
    pub rest: Vec<u32>,
    /// What becomes of the packet. Its fields are those that the pass sets.
    pub out: Out,
    /// The highest stage, 0 where no instruction has one.
    pub highest: u32,
    /// The registers of its values.
    pub plan: RegPlan,
}

impl Pass {
    /// Another one that does the same in the same registers.
    pub fn copy(&self, alloc: Global) -> Result<Self, NoMemory>
        ensures same { IfOk result (λ made. pass_of made ≡ pass_of self.now) }
        ensures plan { IfOk result (λ made. made.plan ≡ self.now.plan) }
    {
        Ok(Pass {
            steps: copy_steps(alloc, self.steps.as_slice())?,
            given: copy_steps(alloc, self.given.as_slice())?,
            blocks: self.blocks.copy(alloc)?,
            rest: self.rest.to_vec(alloc)?,
            out: self.out.copy(alloc)?,
            highest: self.highest,
            plan: self.plan.copy(alloc)?,
        })
    }
}

/// An object that a pass looks up.
#[derive(Drop)]
pub struct Table {
    /// The object's place among the declared ones, from 0.
    pub number: u32,
    pub object: ObjectDecl,
}

impl CopyIn for Table {
    fn copy(&self, alloc: Global) -> Result<Self, NoMemory>
        ensures { IfOk result (λ made. made ≡ self.now) }
    {
        Ok(Table {
            number: self.number,
            object: self.object.copy(alloc)?,
        })
    }
}

/// The objects that the passes look up, in order of declaration.
pub type Tables = Items<Table>;

/// The code of a switch: the pass over a packet that arrives, the pass over one that comes down from the server, and
/// what is handed between them.
#[derive(Drop)]
pub struct SwitchCode {
    pub pre: Pass,
    pub post: Pass,
    /// The values that go up to the server with a packet.
    pub up: Layout,
    /// The values that come down from the server with a packet.
    pub down: Layout,
    pub tables: Tables,
    /// How many rows each write-back table has room for.
    pub writeback: u32,
    /// How many values the flat program has.
    pub values: u32,
    // Each plan is one of the spans of its pass.
    ghost pre_plan: { IsPlanOf (pass_spans tables [] up (pass_of pre)) pre.plan } by { plan_prop (pass_spans tables [] up (pass_of pre)) pre.plan },
    ghost post_plan: { IsPlanOf (pass_spans tables down [] (pass_of post)) post.plan } by { plan_prop (pass_spans tables down [] (pass_of post)) post.plan },
}

impl SwitchCode {
    ghost use Rattle.switch_ir.specs.Code.{code_of};

    /// Code that does the same in the same registers, in memory of its own.
    pub fn copy(&self, alloc: Global) -> Result<Self, NoMemory>
        ensures same { IfOk result (λ made. code_of made ≡ code_of self.now) }
        ensures pre_plan { IfOk result (λ made. made.pre.plan ≡ self.now.pre.plan) }
        ensures post_plan { IfOk result (λ made. made.post.plan ≡ self.now.post.plan) }
    {
        let pre = self.pre.copy(alloc)?;
        let post = self.post.copy(alloc)?;
        let up = self.up.copy(alloc)?;
        let down = self.down.copy(alloc)?;
        let tables = self.tables.copy(alloc)?;
        Ok(SwitchCode {
            pre,
            post,
            up,
            down,
            tables,
            writeback: self.writeback,
            values: self.values,
        })
    }
}
