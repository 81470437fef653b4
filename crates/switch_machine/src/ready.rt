//! The instructions of a pass with the places of their operands and results among the registers.
ghost use Rattle.std.specs.Prelude.{◌≡◌, ◌+◌, ◌++◌, ◌<◌, ◌^◌, [], true, length, map, slice_index_or, IfOk, OnOk};
ghost use Rattle.switch_ir.specs.Code.{pass_step_of};
ghost use Rattle.switch_machine.specs.Ready.{place_in, place_name, places_in, places_of, ready_of, resolved, targets_of};
ghost use Rattle.switch_machine.specs.Ready.{AreReady, HoldResults, IsDirect};

use crate::numbering::{Numbering, ValueRange};
use crate::stages::stages_of;
use crate::written::Written;
use flat_ir::{InstrKind, RegPlan, Renaming, ValueId};
use gal_io::NoMemory;
use std::alloc::Global;
use std::marker::Model;
use switch_ir::{PassStep, Steps};

/// The places of an instruction's results among the registers.
#[derive(Drop)]
pub(crate) enum Places {
    One(u32),
    Many(Vec<u32>),
}

impl Places {
    // Puts them behind others.
    fn push_to(&self, places: &mut Vec<u32>) -> Result<(), NoMemory>
        ensures { OnOk result (places.new.items ≡ places.old.items ++ places_of self.now) }
    {
        match self {
            Places::One(place) => places.push(*place)?,
            Places::Many(list) => places.extend_from_slice(list.as_slice())?,
        }
        Ok(())
    }
}

/// An instruction whose operands are named by their places.
#[derive(Drop)]
pub(crate) struct ReadyStep {
    pub kind: InstrKind,
    pub places: Places,
}

/// The instructions of a stage.
#[derive(Drop)]
pub(crate) struct ReadyStage {
    items: Vec<ReadyStep>,
    // The places of all their results, in order.
    targets: Vec<u32>,
    // No instruction reads a register that one before it writes.
    direct: bool,
}

impl Model for ReadyStage {
    ghost use Rattle.std.specs.Prelude.{List};
    ghost use Rattle.switch_machine.specs.declared.ready.ReadyStep.{ReadyStep};
    ghost use Rattle.switch_machine.specs.Ready.{IsPrepared};

    ghost Value = { List ReadyStep };

    ghost view = { λ stage. stage.items.items };

    ghost invariant = { λ stage. IsPrepared stage.items.items stage.targets.items stage.direct };
}

impl ReadyStage {
    // The stage of some instructions.
    fn of(
        alloc: Global,
        items: Vec<ReadyStep>,
        written: &mut Written,
    ) -> Result<ReadyStage, NoMemory>
        ensures { IfOk result (λ made. made ≡ items.items) }
    {
        let targets = targets(alloc, items.as_slice())?;
        let direct = written.is_direct(items.as_slice());
        Ok(ReadyStage {
            items,
            targets,
            direct,
        })
    }

    pub fn steps(&self) -> &[ReadyStep]
        ensures { result.now ≡ self.now }
    {
        self.items.as_slice()
    }

    /// The places of all results, in order.
    pub fn targets(&self) -> &[u32]
        ensures { result.now ≡ targets_of (map ready_of self.now) }
    {
        self.targets.as_slice()
    }

    /// Whether no instruction reads a register that one before it writes. Where one may, this is false.
    pub fn is_direct(&self) -> bool
        ensures { result ≡ true → IsDirect [] (map ready_of self.now) }
    {
        self.direct
    }
}

// The places of all results of some instructions, in order.
fn targets(alloc: Global, steps: &[ReadyStep]) -> Result<Vec<u32>, NoMemory>
    ensures { IfOk result (λ made. made.items ≡ targets_of (map ready_of steps.now)) }
{
    let mut targets = Vec::new(alloc);
    for step in steps {
        step.places.push_to(&mut targets)?;
    }
    Ok(targets)
}

/// The instructions of a pass, stage by stage.
#[derive(Drop)]
pub(crate) struct ReadyStages {
    items: Vec<ReadyStage>,
}

impl Model for ReadyStages {
    ghost use Rattle.std.specs.Prelude.{List};
    ghost use Rattle.switch_machine.specs.declared.ready.ReadyStep.{ReadyStep};

    ghost Value = { List (List ReadyStep) };

    ghost view = { λ stages. stages.items.items };
}

impl ReadyStages {
    /// The stages of some instructions, up to the highest, with the places that a plan gives to their values.
    pub fn of(
        alloc: Global,
        steps: &Steps,
        highest: u32,
        numbering: &Numbering,
        plan: &RegPlan,
    ) -> Result<ReadyStages, NoMemory>
        ensures { IfOk result (AreReady numbering.now plan.now (map pass_step_of steps.now) highest) }
    {
        let lists = stages_of(alloc, steps, highest)?;
        let resolved = Resolved { numbering, plan };
        resolved.stages(alloc, lists.as_slice())
    }

    /// How many stages there are.
    pub fn len(&self) -> usize
        ensures { result ≡ length self.now }
    {
        self.items.len()
    }

    /// The instructions of a stage.
    pub fn stage(&self, stage: usize) -> &ReadyStage
        requires { stage < length self.now }
        ensures { result.now ≡ slice_index_or self.now stage [] }
    {
        &self.items[stage]
    }

    /// How many results the stage has that has most of them.
    pub fn most(&self) -> usize
        ensures { HoldResults self.now result }
    {
        let mut most = 0;
        for stage in &self.items {
            most = stage.targets().len().max(most);
        }
        most
    }
}

// Where the values of a pass stand: their numbers, and registers by their numbers.
#[derive(Clone, Copy)]
struct Resolved<'a> {
    numbering: &'a Numbering,
    plan: &'a RegPlan,
}

impl Renaming for Resolved<'_> {
    ghost names = { λ resolved. place_name resolved.numbering.now resolved.plan.now };

    fn name(&self, value: ValueId) -> ValueId {
        let instruction = match self.numbering.number(value) {
            Some(number) => self.place(number),
            None => u32::MAX,
        };
        ValueId {
            instruction,
            result: 0,
        }
    }
}

impl Resolved<'_> {
    // The place of the register of a value, past all registers where it has none.
    fn place(&self, number: u32) -> u32
        ensures { result ≡ place_in self.now.plan.now number }
    {
        self.plan.register(number).unwrap_or(u32::MAX)
    }

    // The places of the values of an instruction, in a list.
    fn list(&self, alloc: Global, range: ValueRange) -> Result<Vec<u32>, NoMemory>
        requires { range.first + range.count < 2 ^ 32 }
        ensures { IfOk result (λ made. made.items ≡ places_in self.now.plan.now range) }
    {
        let mut places = Vec::new(alloc);
        for place in 0..range.count {
            places.push(self.place(range.first + place))?;
        }
        Ok(places)
    }

    // The places of the values of an instruction.
    fn places(&self, alloc: Global, range: ValueRange) -> Result<Places, NoMemory>
        requires { range.first + range.count < 2 ^ 32 }
        ensures { IfOk result (λ made. places_of made ≡ places_in self.now.plan.now range) }
    {
        if range.count == 1 {
            Ok(Places::One(self.place(range.first)))
        } else {
            Ok(Places::Many(self.list(alloc, range)?))
        }
    }

    // An instruction by place.
    fn step(&self, alloc: Global, step: &PassStep) -> Result<ReadyStep, NoMemory>
        ensures { IfOk result (λ made. ready_of made
            ≡ resolved self.now.numbering.now self.now.plan.now (pass_step_of step.now)) }
    {
        let range = self.numbering.range(step.instruction);
        Ok(ReadyStep {
            kind: step.kind.renamed(alloc, self)?,
            places: self.places(alloc, range)?,
        })
    }

    // The instructions of a stage by place.
    fn stage(
        &self,
        alloc: Global,
        steps: &[PassStep],
        written: &mut Written,
    ) -> Result<ReadyStage, NoMemory>
        ensures { IfOk result (λ made. map ready_of made
            ≡ map (resolved self.now.numbering.now self.now.plan.now) (map pass_step_of steps.now)) }
    {
        let mut items = Vec::with_capacity(alloc, steps.len())?;
        for step in steps {
            items.push(self.step(alloc, step)?)?;
        }
        ReadyStage::of(alloc, items, written)
    }

    // Each stage by place.
    fn stages(&self, alloc: Global, stages: &[Steps]) -> Result<ReadyStages, NoMemory>
        ensures { IfOk result (λ made. map (map ready_of) made
            ≡ map (λ own. map (resolved self.now.numbering.now self.now.plan.now) (map pass_step_of own)) stages.now) }
    {
        let mut written = Written::new(alloc, self.plan.count())?;
        let mut items = Vec::with_capacity(alloc, stages.len())?;
        for steps in stages {
            items.push(self.stage(alloc, steps.as_slice(), &mut written)?)?;
        }
        Ok(ReadyStages { items })
    }
}
