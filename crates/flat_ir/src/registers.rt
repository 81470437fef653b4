//! What the instructions of a run have given so far.
ghost use Rattle.std.specs.Prelude.{◌≡◌, [], ◌∷◌, slice_index};
ghost use Rattle.flat_ir.specs.Registers.{results_of, reads_of};

use crate::program::ValueId;
use crate::reading::Numbers;
use gal_bits::Values;

/// The results of an instruction, of which there is at least one.
#[derive(Clone, Copy)]
pub struct Results {
    pub first: u64,
    pub others: Values,
}

impl Results {
    /// One result alone.
    pub fn one(first: u64) -> Results
        ensures { results_of result ≡ first ∷ [] }
    {
        Results {
            first,
            others: Values::new(),
        }
    }

    /// The result at a place, 0 past the end.
    pub fn at(&self, place: u32) -> u64
        ensures { result ≡ slice_index (results_of self.now) place }
    {
        let place = place as usize;
        if place == 0 {
            self.first
        } else if place <= self.others.len() {
            self.others.at(place - 1)
        } else {
            0
        }
    }
}

// The number of a value, 0 where it isn't computed.
fn read(rows: &[Results], value: ValueId) -> u64
    ensures { result ≡ reads_of rows.now value }
{
    let number = value.instruction as usize;
    if number < rows.len() {
        rows[number].at(value.result)
    } else {
        0
    }
}

/// The numbers that a run has so far, from the results of its instructions.
#[derive(Clone, Copy)]
pub(crate) struct SoFar<'a> {
    pub rows: &'a [Results],
}

impl Numbers for SoFar<'_> {
    ghost reads = { λ so_far. reads_of so_far.rows.now };

    fn number(&self, value: ValueId) -> u64 {
        read(self.rows, value)
    }
}
