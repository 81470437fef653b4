//! The width of a value.
ghost use Rattle.std.specs.Prelude.{◌≡◌, ◌≤◌, SomeIff};

use std::marker::Model;

/// The number of bits of a value, from 1 to 64. Contracts see the number.
#[derive(Clone, Copy, PartialEq, Eq)]
pub struct Width {
    bits: u8,
}

impl Model for Width {
    ghost use Rattle.std.specs.Prelude.{ℕ, ◌≤◌};

    ghost Value = { ℕ };

    ghost view = { λ width. width.bits };

    ghost invariant = { λ width. (1 ≤ width.bits) × (width.bits ≤ 64) };

    ghost inverse = { λ bits. record { bits = bits } };
}

impl Width {
    /// The width of this many bits. There is none of 0 bits, and none above 64.
    pub fn new(bits: u32) -> Option<Width>
        ensures { SomeIff result ((1 ≤ bits) × (bits ≤ 64)) bits }
    {
        if bits == 0 || bits > 64 {
            None
        } else {
            Some(Width { bits: bits as u8 })
        }
    }

    /// How many bits it is.
    pub fn bits(&self) -> u32
        ensures value { result ≡ self.now }
        ensures range { (1 ≤ result) × (result ≤ 64) }
    {
        u32::from(self.bits)
    }
}
