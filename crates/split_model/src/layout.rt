//! What is handed from one part to the next.
ghost use Rattle.std.specs.Prelude.{◌≡◌, ◌<◌, ◌≤◌, ◌*◌, ◌^◌, length, IfOk};
ghost use Rattle.split_model.specs.Counts.{layout_bytes};

use flat_ir::ValueId;
use gal_bits::Width;
use gal_io::{CopyIn, Items, NoMemory};
use std::alloc::Global;

/// A value that crosses between switch and server.
#[derive(Clone, Copy, PartialEq, Eq)]
pub struct Crossing {
    pub value: ValueId,
    /// The value's place among all values of the flat program, in order of instruction and result, from 0.
    pub number: u32,
    pub width: Width,
}

/// The values of a header, in order of instruction and result.
pub type Layout = Items<Crossing>;

impl CopyIn for Crossing {
    fn copy(&self, _: Global) -> Result<Crossing, NoMemory>
        ensures { IfOk result (λ made. made ≡ self.now) }
    {
        Ok(*self)
    }
}

/// How many bytes hold the values of a header, one after the other and each in as many bits as its width.
pub fn layout_bytes(layout: &[Crossing]) -> usize
    requires few_values { length layout.now < 2 ^ 32 }
    ensures exact { result ≡ layout_bytes layout.now }
    ensures bounded { result ≤ 8 * length layout.now }
{
    let mut bits = 7usize;
    for crossing in layout {
        bits += crossing.width.bits() as usize;
    }
    bits / 8
}
