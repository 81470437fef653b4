//! Memory for frames.
ghost use Rattle.std.specs.Prelude.{◌≡◌, ◌^◌, ◌<◌, ◌≤◌, [], length, vec_capacity, IfOk};
ghost use Rattle.transfer_header.specs.Values.{total};
ghost use Rattle.transfer_header.specs.Frames.{HasRoom};

use gal_io::NoMemory;
use split_model::Layout;
use std::alloc::Global;
use std::marker::Model;

// The bytes in front of the values: a kind, a number of four bytes, and a port.
pub(crate) const FIXED_BYTES: usize = 6;

/// Memory for one frame. Contracts see for how many bytes.
#[derive(Drop)]
pub struct FrameRoom {
    bytes: Vec<u8>,
}

impl Model for FrameRoom {
    ghost use Rattle.std.specs.Prelude.{◌≡◌, ℕ, [], vec_capacity};

    ghost Value = { ℕ };

    ghost view = { λ room. vec_capacity room.bytes };

    ghost invariant = { λ room. room.bytes.items ≡ [] };
}

impl FrameRoom {
    /// Memory for a frame of a layout with a packet of so many bytes, or fewer.
    pub fn new(alloc: Global, layout: &Layout, packet: usize) -> Result<FrameRoom, NoMemory>
        ensures { IfOk result (λ room. HasRoom layout.now packet room) }
    {
        // No program has so many values.
        if layout.len() > u32::MAX as usize {
            return Err(NoMemory);
        }
        let fixed = FIXED_BYTES + (total_bits(layout) + 7) / 8;
        let bytes = Vec::with_capacity(alloc, fixed.saturating_add(packet))?;
        Ok(FrameRoom { bytes })
    }

    // The memory, with no bytes in it.
    pub(crate) fn into_bytes(self) -> Vec<u8>
        ensures items { result.items ≡ [] }
        ensures capacity { vec_capacity result ≡ self }
    {
        self.bytes
    }
}

// How many bits the values of a layout have together.
pub(crate) fn total_bits(layout: &Layout) -> usize
    requires { length layout.now < 2 ^ 32 }
    ensures value { result ≡ total layout.now }
    ensures near { result ≤ 2 ^ 38 }
{
    let mut bits = 0;
    for crossing in layout.as_slice() {
        bits += crossing.width.bits() as usize;
    }
    bits
}
