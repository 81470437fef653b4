//! Where the operands and results of a program's instructions stand among registers.
ghost use Rattle.std.specs.Prelude.{◌≡◌, ◌<◌, ◌≤◌, ◌^◌, ℕ, suc, length, slice_index, IfOk};
ghost use Rattle.flat_ir.specs.Program.{program_of};
ghost use Rattle.split_model.specs.Layouts.{values_below};
ghost use Rattle.transfer_header.specs.Ready.{places_of};
ghost use Rattle.server_runtime.specs.Plans.{IsPrepared};
ghost use Rattle.server_runtime.specs.Registers.{place_in, AreSeats};
ghost use Rattle.server_runtime.specs.Resolved.{place_name, ArePlaces, IsResolved};

use crate::plan::{PlannedStep, PreparedProgram};
use flat_ir::{Renaming, ValueId, what_fits_can_run};
use gal_io::NoMemory;
use std::alloc::Global;
use transfer_header::{Places, ReadyKind, ReadyStep, Regs};

// The values of a program, each known by its place among registers.
#[derive(Clone, Copy)]
struct Resolved<'a> {
    whole: &'a PreparedProgram,
    values: &'a Regs,
    ghost count: { length whole.now.firsts.items ≡ suc (length (program_of whole.now.flat).code) },
    ghost each: { (i : ℕ) → i ≤ length (program_of whole.now.flat).code
        → slice_index whole.now.firsts.items i ≡ length (values_below (program_of whole.now.flat) i) },
}

impl Renaming for Resolved<'_> {
    ghost names = { λ r. place_name (program_of r.whole.now.flat) r.values.now };

    fn name(&self, value: ValueId) -> ValueId {
        ValueId {
            instruction: self.place(value),
            result: 0,
        }
    }
}

impl Resolved<'_> {
    // Where the number of a value stands, past all registers if nowhere.
    fn place(&self, value: ValueId) -> u32
        ensures { result ≡ place_in (program_of self.now.whole.now.flat) self.now.values.now value }
    {
        match self.whole.number(value) {
            Some(number) => self.values.register(number).unwrap_or(u32::MAX),
            None => u32::MAX,
        }
    }

    // Where the number of a result of an instruction stands.
    fn result_place(&self, instruction: usize, result_at: u32) -> u32
        requires { instruction < 2 ^ 32 }
        ensures { result ≡ place_in (program_of self.now.whole.now.flat) self.now.values.now
            (record { instruction = instruction; result = result_at }) }
    {
        self.place(ValueId {
            instruction: instruction as u32,
            result: result_at,
        })
    }

    // Where the first results of an instruction stand, so many of them.
    fn list(&self, alloc: Global, instruction: usize, count: u32) -> Result<Vec<u32>, NoMemory>
        requires { instruction < 2 ^ 32 }
        ensures count { IfOk result (λ made. length made.items ≡ count) }
        ensures each { IfOk result (λ made. (k : ℕ) → k < count → slice_index made.items k
            ≡ place_in (program_of self.now.whole.now.flat) self.now.values.now
            (record { instruction = instruction; result = k })) }
    {
        let mut places = Vec::new(alloc);
        for result_at in 0..count {
            places.push(self.result_place(instruction, result_at))?;
        }
        Ok(places)
    }

    // Where the results of an instruction stand.
    fn places(&self, alloc: Global, instruction: usize) -> Result<Places, NoMemory>
        requires prepared { IsPrepared self.now.whole.now }
        requires within { instruction < length self.now.whole.now.flat.code }
        ensures { IfOk result (λ made.
            ArePlaces (program_of self.now.whole.now.flat) self.now.values.now instruction (places_of made)) }
    {
        let first = self.whole.first(instruction);
        let count = self.whole.first(instruction + 1) - first;
        if count == 1 {
            return Ok(Places::One(self.result_place(instruction, 0)));
        }
        let list = self.list(alloc, instruction, count)?;
        Ok(Places::Many(list))
    }
}

/// Where each instruction's first value stands.
pub(crate) fn seats_of(
    alloc: Global,
    whole: &PreparedProgram,
    values: &Regs,
) -> Result<Vec<u32>, NoMemory>
    requires { IsPrepared whole.now }
    ensures { IfOk result (λ seats. AreSeats (program_of whole.now.flat) seats.items values.now) }
{
    let resolved = Resolved { whole, values };
    let count = whole.flat.code.len();
    let mut seats = Vec::with_capacity(alloc, count)?;
    for instruction in 0..count {
        seats.push(resolved.result_place(instruction, 0))?;
    }
    Ok(seats)
}

/// The step at an instruction.
pub(crate) fn planned_step(
    alloc: Global,
    whole: &PreparedProgram,
    values: &Regs,
    instruction: usize,
) -> Result<PlannedStep, NoMemory>
    requires prepared { IsPrepared whole.now }
    requires within { instruction < length whole.now.flat.code }
    ensures instruction { IfOk result (λ made. made.instruction ≡ instruction) }
    ensures resolved { IfOk result (IsResolved (program_of whole.now.flat) values.now) }
{
    let instr = &whole.flat.code.as_slice()[instruction];
    what_fits_can_run(&whole.flat, &instr.kind);
    let resolved = Resolved { whole, values };
    let kind = ReadyKind::of(alloc, &instr.kind, &resolved)?;
    let places = resolved.places(alloc, instruction)?;
    Ok(PlannedStep {
        instruction: instruction as u32,
        ready: ReadyStep { kind, places },
    })
}
