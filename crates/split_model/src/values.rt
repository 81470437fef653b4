//! Sets of values.
ghost use Rattle.std.specs.Prelude.{◌≡◌, ◌<◌, ◌^◌, false, IfOk};
ghost use Rattle.flat_ir.specs.Program.{work_of, operands};
ghost use Rattle.split_model.specs.Crossing.{is_value, is_among};
ghost use Rattle.split_model.specs.Marked.{is_marked, AreMarked, Adds};

use flat_ir::{InstrKind, ValueId};
use gal_io::NoMemory;
use std::alloc::Global;
use std::marker::Model;

/// Whether two values are the same one.
pub fn is_value(one: ValueId, other: ValueId) -> bool
    ensures { result ≡ is_value one other }
{
    one == other
}

/// A set of values, by a mark for each of the first 9 results of each instruction. No instruction has more.
#[derive(Drop)]
pub struct ValueSet {
    marks: Vec<bool>,
}

impl Model for ValueSet {
    ghost use Rattle.std.specs.Prelude.{List, Bool};

    ghost Value = { List Bool };

    ghost view = { λ set. set.marks.items };
}

impl ValueSet {
    /// The empty set, with room for the values of so many instructions.
    pub(crate) fn new(alloc: Global, instructions: usize) -> Result<ValueSet, NoMemory>
        requires few_instructions { instructions < 2 ^ 32 }
        ensures { IfOk result (λ set. AreMarked instructions (λ v. false) set) }
    {
        let marks = vec![in alloc; false; 9 * instructions]?;
        Ok(ValueSet { marks })
    }

    /// Whether a value is in the set.
    pub fn has(&self, value: ValueId) -> bool
        ensures { result ≡ is_marked self.now value }
    {
        let place = 9 * value.instruction as usize + value.result as usize;
        if place < self.marks.len() {
            self.marks[place]
        } else {
            false
        }
    }

    /// The same set again, in memory of its own.
    pub fn copy(&self, alloc: Global) -> Result<ValueSet, NoMemory>
        ensures { IfOk result (λ made. made ≡ self.now) }
    {
        let marks = self.marks.to_vec(alloc)?;
        Ok(ValueSet { marks })
    }

    /// Puts a value into the set, where there is room for it.
    pub(crate) fn insert(&mut self, value: ValueId)
        ensures { Adds (λ v. is_value v value) self.old self.new }
    {
        let place = 9 * value.instruction as usize + value.result as usize;
        if value.result < 9 && place < self.marks.len() {
            self.marks[place] = true;
        }
    }

    /// Puts several values into the set.
    pub(crate) fn insert_all(&mut self, values: &[ValueId])
        ensures { Adds (λ v. is_among v values.now) self.old self.new }
    {
        for value in values {
            self.insert(*value);
        }
    }

    /// Puts the operands of an instruction into the set.
    pub(crate) fn insert_operands(&mut self, kind: &InstrKind)
        ensures { Adds (λ v. is_among v (operands (work_of kind.now))) self.old self.new }
    {
        for place in 0..kind.operand_count() {
            self.insert(kind.operand(place));
        }
    }
}
