//! Short lists of numbers.
ghost use Rattle.std.specs.Prelude.{◌≡◌, ℕ, ◌<◌, ◌≤◌, ◌==◌, List, [], ◌∷◌, ◌++◌, length, slice_index, nat_eq, Some};
ghost use Rattle.std.specs.Prelude.{refl};
ghost use Rattle.std.specs.Ordering.{nat_cmp};
ghost use Rattle.std.specs.Cmp.{partial_equiv_from_equiv};
ghost use Rattle.std.specs.Cmp.Lexicographic.{pointwise, slice_cmp, nat_list_eq_equiv, nat_list_cmp_total, texts_po};
ghost use Rattle.std.specs.Cmp.Lexicographic.{texts_ties};
ghost use Rattle.std.specs.Cmp.Rules.{hashing};
ghost use Rattle.std.specs.Hash as fed;
ghost use Rattle.std.proofs.Common.{rules};

use std::cmp::Ordering;
use std::hash::{Hash, Hasher};
use std::marker::Model;

/// A list of at most 8 numbers, which lie in the value itself. The order is that of lists, by the first difference.
#[derive(Clone, Copy)]
pub struct Values {
    places: [u64; 8],
    len: usize,
}

impl Model for Values {
    ghost use Rattle.std.specs.Prelude.{ℕ, List, length, take};
    ghost use Rattle.gal_bits.specs.Padded.{IsPadded, length-taken, padded, padded-taken};

    ghost Value = { List ℕ };

    ghost view = { λ a. take a.len a.places };

    ghost invariant = { λ a. IsPadded a.places a.len };

    ghost inverse = { λ numbers. record { places = padded numbers; len = length numbers } };

    ghost inverse_ok = { λ a h i. record {
      places = padded-taken a.places a.len h i;
      len = length-taken a.places a.len h i;
    } };
}

impl Values {
    /// The empty list.
    pub fn new() -> Values
        ensures { result ≡ [] }
    {
        Values {
            places: [0; 8],
            len: 0,
        }
    }

    /// Adds a number at the end.
    pub fn push(&mut self, value: u64)
        requires { length self.old < 8 }
        ensures { self.new ≡ self.old ++ value ∷ [] }
    {
        self.places[self.len] = value;
        self.len += 1;
    }

    /// How many numbers there are.
    pub fn len(&self) -> usize
        ensures value { result ≡ length self.now }
        ensures small { length self.now ≤ 8 }
    {
        self.len
    }

    /// Whether there is no number.
    pub fn is_empty(&self) -> bool
        ensures { result ≡ (length self.now == 0) }
    {
        self.len == 0
    }

    /// The number at this place, counted from 0.
    pub fn at(&self, i: usize) -> u64
        requires { i < length self.now }
        ensures { result ≡ slice_index self.now i }
    {
        self.as_slice()[i]
    }

    /// All numbers, in order.
    pub fn as_slice(&self) -> &[u64]
        ensures { result.now ≡ self.now }
    {
        &self.places[..self.len]
    }
}

impl PartialEq for Values {
    ghost eq = { pointwise nat_eq };

    ghost laws = { partial_equiv_from_equiv nat_list_eq_equiv };

    fn eq(&self, other: &Values) -> bool {
        self.as_slice() == other.as_slice()
    }
}

impl Eq for Values {
    ghost laws = { nat_list_eq_equiv };
}

impl PartialOrd for Values {
    ghost partial_cmp = { λ s t. Some (slice_cmp nat_cmp s t) };

    ghost laws = { texts_po };

    fn partial_cmp(&self, other: &Values) -> Option<Ordering> {
        Some(self.cmp(other))
    }
}

impl Ord for Values {
    ghost cmp = { slice_cmp nat_cmp };

    ghost total = { nat_list_cmp_total };

    ghost matches_partial_cmp = { λ s t. refl };

    ghost matches_eq = { λ s t. texts_ties s t };

    fn cmp(&self, other: &Values) -> Ordering {
        self.as_slice().cmp(other.as_slice())
    }
}

impl Hash for Values {
    ghost hash_input = { λ s. fed.slice fed.u64 s };

    ghost respects_eq = { Prim.search (hashing, rules) };

    fn hash<H: Hasher>(&self, state: &mut H) {
        self.as_slice().hash(state);
    }
}
