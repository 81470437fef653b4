//! A register for each value.
ghost use Rattle.std.specs.Prelude.{◌≡◌, ◌<◌, ◌≤◌, ◌↔◌, ◌^◌, ℕ, length, IfOk, IfSome, None};
ghost use Rattle.std.specs.List.Sorted.{IsPermutation, IsNonDecreasingBy};
ghost use Rattle.flat_ir.specs.Spans.{ValuesDiffer, AreWrittenFirst, spans_of};
ghost use Rattle.flat_ir.specs.Plan.{RegisterPlan, register_in, register_of, AreBelow, AreFirst, AreApart, IsGreatestOverlap};

use crate::spans::{Span, Spans};
use crate::taken::{Taken, take};
use gal_io::NoMemory;
use slot_table::SlotTable;
use std::alloc::Global;
use std::collections::BinaryHeap;
use std::marker::Model;

/// A register for each value that has a span, so that no two values are in one register at one step.
#[derive(Drop)]
pub struct RegPlan {
    // Apart, so that what may have a plan and has none takes little memory.
    registers: Box<SlotTable<1, 1>>,
    // The registers of the first values, so that these are found by index.
    first: Vec<Option<u32>>,
    count: u32,
}

impl Model for RegPlan {
    ghost use Rattle.std.specs.Prelude.{◌<◌, ◌^◌};
    ghost use Rattle.flat_ir.specs.Plan.{RegisterPlan, AreBelow, AreFirst, plan_code};

    ghost Value = { RegisterPlan };

    ghost coded = { plan_code };

    ghost view = { λ plan. record { rows = plan.registers.value.rows; count = plan.count } };

    ghost invariant = { λ plan. (AreBelow plan.registers.value.rows plan.count) × (plan.count < 2 ^ 32)
        × (AreFirst plan.registers.value.rows plan.first.items) };
}

// The spans, in the order of their first steps.
fn in_order(alloc: Global, spans: &Spans) -> Result<Vec<Span>, NoMemory>
    requires { length spans.now < 2 ^ 32 }
    ensures same { IfOk result (λ sorted. IsPermutation spans.now sorted.items) }
    ensures rising { IfOk result (λ sorted. IsNonDecreasingBy (λ span. span.from) sorted.items) }
    ensures bounded { IfOk result (λ sorted. length sorted.items < 2 ^ 32) }
{
    let mut sorted = spans.as_slice().to_vec(alloc)?;
    sorted.sort_by_key(|span| span.from)?;
    Ok(sorted)
}

// How many values are found by index: all of them up to the greatest, but 65,536 at most.
fn first_values(spans: &[Span]) -> u32
    ensures { result ≤ 65536 }
{
    match spans.iter().map(|span| span.value).max() {
        Some(greatest) => greatest.min(65_535) + 1,
        None => 0,
    }
}

// The register of a value in a table.
fn register_in(registers: &SlotTable<1, 1>, value: u32) -> Option<u32>
    requires { AreBelow registers.now.rows (2 ^ 32) }
    ensures { result ≡ register_in registers.now.rows value }
{
    let words = registers.look(&[value as u64])?;
    let register = words[0];
    Some(register as u32)
}

// The registers of so many values, each at its value.
fn first_registers(
    alloc: Global,
    registers: &SlotTable<1, 1>,
    values: u32,
) -> Result<Vec<Option<u32>>, NoMemory>
    requires { AreBelow registers.now.rows (2 ^ 32) }
    ensures { IfOk result (λ first. AreFirst registers.now.rows first.items) }
{
    let mut first = Vec::with_capacity(alloc, values as usize)?;
    for value in 0..values {
        first.push(register_in(registers, value))?;
    }
    Ok(first)
}

impl RegPlan {
    /// A plan with as few registers as spans allow. This takes n log n steps for n spans, and one step for each value
    /// up to the greatest that has a span, at most 65,536.
    pub fn of(alloc: Global, spans: &Spans) -> Result<RegPlan, NoMemory>
        requires few_spans { length spans.now < 2 ^ 32 }
        requires differ { ValuesDiffer spans.now }
        requires ordered { AreWrittenFirst spans.now }
        ensures registers { IfOk result (λ plan. (value : ℕ)
            → (register_of plan value ≡ None) ↔ (spans_of spans.now value ≡ 0)) }
        ensures below { IfOk result (λ plan. AreBelow plan.rows plan.count) }
        ensures apart { IfOk result (λ plan. AreApart spans.now plan.rows) }
        ensures count { IfOk result (λ plan. IsGreatestOverlap spans.now plan.count) }
    {
        let sorted = in_order(alloc, spans)?;
        let mut registers = SlotTable::new(alloc, sorted.len())?;
        let mut taken = BinaryHeap::<Taken>::new(alloc);
        for span in &sorted {
            let register = take(&mut taken, span)?;
            let _ = registers.insert([span.value as u64], [register as u64]);
        }
        let count = taken.len() as u32;
        let registers = Box::new(alloc, registers)?;
        let first = first_registers(alloc, &registers, first_values(&sorted))?;
        Ok(RegPlan {
            registers,
            first,
            count,
        })
    }

    /// The register of a value, or none if it has no span.
    pub fn register(&self, value: u32) -> Option<u32>
        ensures register { result ≡ register_of self.now value }
        ensures below { IfSome result (λ register. register < self.now.count) }
    {
        match self.first.get(value as usize) {
            Some(register) => *register,
            None => register_in(&self.registers, value),
        }
    }

    /// The same plan again, in memory of its own.
    pub fn copy(&self, alloc: Global) -> Result<RegPlan, NoMemory>
        ensures { IfOk result (λ made. made ≡ self.now) }
    {
        Ok(RegPlan {
            registers: Box::new(alloc, self.registers.copy(alloc)?)?,
            first: self.first.as_slice().to_vec(alloc)?,
            count: self.count,
        })
    }

    /// How many registers there are.
    pub fn count(&self) -> u32
        ensures count { result ≡ self.now.count }
        ensures below { AreBelow self.now.rows self.now.count }
    {
        self.count
    }
}
