//! Short lists of widths.
ghost use Rattle.std.specs.Prelude.{◌≡◌, ◌<◌, ◌≤◌, ◌==◌, [], ◌∷◌, ◌++◌, length, slice_index};

use crate::values::Values;
use std::marker::Model;

/// A list of at most 8 widths in bits, which lie in the value itself. They are plain numbers, as a text gives them, and
/// may be none that a `Width` has. The order is that of lists, by the first difference.
#[derive(Clone, Copy, PartialEq, Eq, PartialOrd, Ord, Hash)]
pub struct Widths {
    bits: Values,
}

impl Model for Widths {
    ghost use Rattle.std.specs.Prelude.{ℕ, List};

    ghost Value = { List ℕ };

    ghost view = { λ widths. widths.bits };

    ghost inverse = { λ numbers. record { bits = numbers } };
}

impl Widths {
    /// The empty list.
    pub fn new() -> Widths
        ensures { result ≡ [] }
    {
        Widths {
            bits: Values::new(),
        }
    }

    /// Adds a width at the end.
    pub fn push(&mut self, bits: u64)
        requires { length self.old < 8 }
        ensures { self.new ≡ self.old ++ bits ∷ [] }
    {
        self.bits.push(bits);
    }

    /// How many widths there are.
    pub fn len(&self) -> usize
        ensures value { result ≡ length self.now }
        ensures small { length self.now ≤ 8 }
    {
        self.bits.len()
    }

    /// Whether there is no width.
    pub fn is_empty(&self) -> bool
        ensures { result ≡ (length self.now == 0) }
    {
        self.bits.is_empty()
    }

    /// The width at this place, counted from 0.
    pub fn at(&self, i: usize) -> u64
        requires { i < length self.now }
        ensures { result ≡ slice_index self.now i }
    {
        self.bits.at(i)
    }

    /// All widths, in order.
    pub fn as_slice(&self) -> &[u64]
        ensures { result.now ≡ self.now }
    {
        self.bits.as_slice()
    }
}
