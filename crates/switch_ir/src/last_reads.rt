//! When each value is read last.
ghost use Rattle.std.specs.Prelude.{◌≡◌, ◌<◌, ◌^◌, ℕ, IfOk};
ghost use Rattle.flat_ir.specs.Program.{work_of, operands};
ghost use Rattle.split_model.specs.Crossing.{is_value, is_among};
ghost use Rattle.switch_ir.specs.LastReads.{noted, AreNoted, Raises};

use flat_ir::{InstrKind, ValueId};
use gal_io::NoMemory;
use std::alloc::Global;
use std::marker::Model;

/// The step that reads a value last, for each of the first 9 results of each instruction, and 0 where none does. No
/// instruction has more results.
#[derive(Drop)]
pub(crate) struct LastReads {
    steps: Vec<u32>,
}

impl Model for LastReads {
    ghost use Rattle.std.specs.Prelude.{List, ℕ};

    ghost Value = { List ℕ };

    ghost view = { λ last. last.steps.items };
}

impl LastReads {
    /// No value is read, of so many instructions.
    pub fn new(alloc: Global, instructions: usize) -> Result<LastReads, NoMemory>
        requires few_instructions { instructions < 2 ^ 32 }
        ensures { IfOk result (λ last. AreNoted instructions (λ v. 0) last) }
    {
        let steps = vec![in alloc; 0u32; 9 * instructions]?;
        Ok(LastReads { steps })
    }

    /// The step that reads a value last.
    pub fn at(&self, value: ValueId) -> u32
        ensures { result ≡ noted self.now value }
    {
        let place = 9 * value.instruction as usize + value.result as usize;
        if place < self.steps.len() {
            self.steps[place]
        } else {
            0
        }
    }

    /// A step reads a value.
    pub fn note(&mut self, value: ValueId, step: u32)
        ensures { Raises (λ v. is_value v value) step self.old self.new }
    {
        let place = 9 * value.instruction as usize + value.result as usize;
        if value.result < 9 && place < self.steps.len() {
            self.steps[place] = self.steps[place].max(step);
        }
    }

    /// A step reads several values.
    pub fn note_all(&mut self, values: &[ValueId], step: u32)
        ensures { Raises (λ v. is_among v values.now) step self.old self.new }
    {
        for value in values {
            self.note(*value, step);
        }
    }

    /// A step reads the operands of an instruction.
    pub fn note_operands(&mut self, kind: &InstrKind, step: u32)
        ensures { Raises (λ v. is_among v (operands (work_of kind.now))) step self.old self.new }
    {
        match kind {
            InstrKind::Const(..) | InstrKind::Field(_) => {}
            InstrKind::Apply { args, .. } => self.note_all(args, step),
            InstrKind::Shift { arg, .. } => self.note_all(&[*arg], step),
            InstrKind::Select {
                cond,
                first,
                second,
                ..
            } => self.note_all(&[*cond, *first, *second], step),
            InstrKind::Byte(index) => self.note_all(&[*index], step),
            InstrKind::Look { keys, .. } | InstrKind::Del { keys, .. } => self.note_all(keys, step),
            InstrKind::Put { keys, values, .. } => {
                self.note_all(keys, step);
                self.note_all(values, step);
            }
        }
    }
}
