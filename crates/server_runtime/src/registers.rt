//! Registers, as values are read from them.
ghost use Rattle.std.specs.Prelude.{◌≡◌, ◌<◌, ◌≤◌, ℕ, suc, length, slice_index};
ghost use Rattle.flat_ir.specs.Program.{program_of};
ghost use Rattle.split_model.specs.Layouts.{values_below};
ghost use Rattle.server_runtime.specs.Registers.{first_of, register_reads, seat_in};

use crate::plan::PreparedProgram;
use flat_ir::{Numbers, ValueId};
use transfer_header::Regs;

/// The numbers that a server has so far.
#[derive(Clone, Copy)]
pub(crate) struct Registers<'a> {
    pub whole: &'a PreparedProgram,
    pub values: &'a Regs,
    ghost count: { length whole.now.firsts.items ≡ suc (length (program_of whole.now.flat).code) },
    ghost each: { (i : ℕ) → i ≤ length (program_of whole.now.flat).code
        → slice_index whole.now.firsts.items i ≡ length (values_below (program_of whole.now.flat) i) },
    ghost seats: { length whole.now.seats.items ≡ length (program_of whole.now.flat).code },
    ghost seat: { (i : ℕ) → i < length (program_of whole.now.flat).code
        → slice_index whole.now.seats.items i ≡ seat_in (program_of whole.now.flat) values.now i },
}

impl Registers<'_> {
    // The number of an instruction's first value.
    fn first(&self, instruction: usize) -> u64
        requires { instruction < length self.now.whole.now.flat.code }
        ensures { result ≡ register_reads (program_of self.now.whole.now.flat) self.now.values.now
            (first_of instruction) }
    {
        let place = self.whole.seats[instruction] as usize;
        let numbers = self.values.as_slice();
        if place < numbers.len() {
            numbers[place]
        } else {
            0
        }
    }

    // The number of any value.
    fn any(&self, value: ValueId) -> u64
        ensures { result ≡ register_reads (program_of self.now.whole.now.flat) self.now.values.now value }
    {
        match self.whole.number(value) {
            Some(number) => self.values.number(number),
            None => 0,
        }
    }
}

impl Numbers for Registers<'_> {
    ghost reads = { λ r. register_reads (program_of r.whole.now.flat) r.values.now };

    fn number(&self, value: ValueId) -> u64 {
        let instruction = value.instruction as usize;
        if value.result == 0 && instruction < self.whole.flat.code.len() {
            self.first(instruction)
        } else {
            self.any(value)
        }
    }
}
