//! The numbers of a pass's values.
ghost use Rattle.std.specs.Prelude.{◌≡◌, ◌==◌, ◌<◌, ◌≤◌, ◌+◌, ◌-◌, ◌^◌, ℕ, [], length, map, max, IfOk, OnOk};
ghost use Rattle.std.specs.Prelude.{if◌then◌else◌, suc, unwrap_or};
ghost use Rattle.std.specs.Option.{option_map};
ghost use Rattle.state_store.specs.declared.object.ObjectDecl.{ObjectDecl as Declared};
ghost use Rattle.flat_ir.specs.Program.{work_of};
ghost use Rattle.switch_ir.specs.Code.{pass_of, pass_step_of};
ghost use Rattle.switch_ir.specs.Spans.{results_in};
ghost use Rattle.switch_ir.specs.Tables.{declared_at};
ghost use Rattle.switch_machine.specs.Numbers.{number_in, range_at};
ghost use Rattle.switch_machine.specs.Ranges.{crossing_entry, entered, entries, from_first, step_entry, with_entry, AreRanges};

use flat_ir::{InstrKind, ValueId};
use gal_io::NoMemory;
use split_model::Crossing;
use std::alloc::Global;
use std::marker::Model;
use switch_ir::{Pass, PassStep, Table};

/// Where the values of an instruction stand among all values of the program: the number of the first, and how many
/// there are.
#[derive(Clone, Copy)]
pub(crate) struct ValueRange {
    pub first: u32,
    pub count: u32,
}

impl ValueRange {
    // So many values from the first on, as far as they have numbers of 32 bits.
    fn from_first(first: u32, count: u32) -> ValueRange
        ensures range { result ≡ from_first first count }
        ensures within { result.first + result.count < 2 ^ 32 }
    {
        ValueRange {
            first,
            count: count.min(u32::MAX - first),
        }
    }
}

/// For each instruction where its values stand. There are none of an instruction that the pass doesn't know.
#[derive(Drop)]
pub(crate) struct Numbering {
    items: Vec<ValueRange>,
}

impl Model for Numbering {
    ghost use Rattle.std.specs.Prelude.{List, ◌+◌, ◌<◌, ◌^◌};
    ghost use Rattle.std.specs.List.{All};
    ghost use Rattle.switch_machine.specs.declared.numbering.ValueRange.{ValueRange};

    ghost Value = { List ValueRange };

    ghost view = { λ numbering. numbering.items.items };

    ghost invariant = { λ numbering. All (λ range. range.first + range.count < 2 ^ 32) numbering.items.items };
}

impl Numbering {
    /// Where the values of an instruction stand.
    pub fn range(&self, instruction: u32) -> ValueRange
        ensures range { result ≡ range_at self.now instruction }
        ensures within { result.first + result.count < 2 ^ 32 }
    {
        let instruction = instruction as usize;
        if instruction < self.items.len() {
            self.items[instruction]
        } else {
            ValueRange { first: 0, count: 0 }
        }
    }

    /// The number of a value, if it is one of the pass.
    pub fn number(&self, value: ValueId) -> Option<u32>
        ensures { result ≡ number_in self.now value }
    {
        let range = self.range(value.instruction);
        if value.result < range.count {
            Some(range.first + value.result)
        } else {
            None
        }
    }

    /// Of the values of a pass to which those of a layout are handed.
    pub fn of(
        alloc: Global,
        tables: &[Table],
        handed: &[Crossing],
        pass: &Pass,
    ) -> Result<Numbering, NoMemory>
        ensures { IfOk result (AreRanges (entries tables.now handed.now (pass_of pass.now))) }
    {
        let mut numbering = Numbering {
            items: Vec::new(alloc),
        };
        numbering.put_crossings(handed)?;
        numbering.put_steps(tables, pass.given.as_slice())?;
        numbering.put_steps(tables, pass.steps.as_slice())?;
        Ok(numbering)
    }

    // There is a range for an instruction: one without values, where there was none.
    fn reach(&mut self, instruction: u32) -> Result<(), NoMemory>
        ensures ranges { OnOk result ((i : ℕ) → range_at self.new i ≡ range_at self.old i) }
        ensures reached { OnOk result (instruction < length self.new) }
    {
        let count = instruction as usize + 1;
        if self.items.len() < count {
            self.items.resize(count, ValueRange::from_first(0, 0))?;
        }
        Ok(())
    }

    // Notes that so many values of an instruction stand from the first on. There may be more.
    fn put(&mut self, instruction: u32, first: u32, count: u32) -> Result<(), NoMemory>
        ensures { OnOk result ((i : ℕ) → range_at self.new i ≡ (if i == instruction
            then from_first first (max (range_at self.old i).count count) else range_at self.old i)) }
    {
        self.reach(instruction)?;
        let place = instruction as usize;
        let known = self.items[place].count;
        self.items[place] = ValueRange::from_first(first, known.max(count));
        Ok(())
    }

    // Notes where the values of some instructions stand.
    fn put_steps(&mut self, tables: &[Table], steps: &[PassStep]) -> Result<(), NoMemory>
        ensures { OnOk result ((i : ℕ) → range_at self.new i
            ≡ entered (map (step_entry tables.now) (map pass_step_of steps.now)) (range_at self.old) i) }
    {
        for step in steps {
            let count = value_count(tables, &step.kind);
            self.put(step.instruction, step.first, count)?;
        }
        Ok(())
    }

    // Notes where values stand that are handed in.
    fn put_crossings(&mut self, crossings: &[Crossing]) -> Result<(), NoMemory>
        ensures { OnOk result ((i : ℕ) → range_at self.new i
            ≡ entered (map crossing_entry crossings.now) (range_at self.old) i) }
    {
        for crossing in crossings {
            let place = crossing.value.result;
            let first = crossing.number.saturating_sub(place);
            self.put(crossing.value.instruction, first, place.saturating_add(1))?;
        }
        Ok(())
    }
}

// How many values a row of an object has, if it is looked up.
fn row_values(tables: &[Table], object: u32) -> u32
    ensures exact { result
        ≡ length (unwrap_or (option_map (λ (d : Declared). d.values) (declared_at tables.now object)) []) }
    ensures bounded { result ≤ 8 }
{
    for table in tables {
        if table.number == object {
            return table.object.values.len() as u32;
        }
    }
    0
}

// How many values an instruction has.
fn value_count(tables: &[Table], kind: &InstrKind) -> u32
    ensures { result ≡ results_in tables.now (work_of kind.now) }
{
    match kind {
        InstrKind::Look { object, .. } => 1 + row_values(tables, *object),
        _ => 1,
    }
}
