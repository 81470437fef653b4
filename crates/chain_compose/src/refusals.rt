//! Elements that can't stand where they are.
ghost use Rattle.std.specs.Prelude.{◌≡◌, ◌<◌, ◌≤◌, ℕ, length, map, true, false, MatchOption};
ghost use Rattle.element_lang.specs.View.{tree};
ghost use Rattle.chain_compose.specs.Refusals.{ReadsBehind, IsFirst};
ghost use Rattle.chain_compose.specs.Reach.{is_shown, repeats_within, some_below, sends_to};

use crate::matrix::Reach;
use crate::uses::{any_repeats, any_sends_again, any_uses_bytes};
use element_lang::Middlebox;

/// The first element behind the entry that reads bytes of the packet as it arrived.
pub(crate) fn first_reader(classes: &[Middlebox]) -> Option<u32>
    requires { length classes.now ≤ 32 }
    ensures { MatchOption result ((e : ℕ) → ReadsBehind (map tree classes.now) e → ⊥)
        (IsFirst (ReadsBehind (map tree classes.now))) }
{
    for element in 1..classes.len() {
        if any_uses_bytes(&classes[element].body) {
            return Some(element as u32);
        }
    }
    None
}

// Whether an element is reached, sends within a `repeat`, and wires lead from it to another.
fn sends_to(classes: &[Middlebox], reach: &Reach, from: usize, to: usize) -> bool
    requires few_classes { length classes.now ≤ 32 }
    requires count { reach.now.count ≡ length classes.now }
    requires from { from < length classes.now }
    requires to { to < length classes.now }
    ensures { result ≡ sends_to (map tree classes.now) (is_shown reach.now) to from }
{
    (from == 0 || reach.leads(0, from))
        && any_sends_again(&classes[from].body)
        && reach.leads(from, to)
}

// Whether an element stands behind one that is reached and sends within a `repeat`.
fn stands_within(classes: &[Middlebox], reach: &Reach, element: usize) -> bool
    requires few_classes { length classes.now ≤ 32 }
    requires count { reach.now.count ≡ length classes.now }
    requires element_in_range { element < length classes.now }
    ensures { result ≡ some_below (length classes.now) (sends_to (map tree classes.now) (is_shown reach.now) element) }
{
    for from in 0..classes.len() {
        if sends_to(classes, reach, from, element) {
            return true;
        }
    }
    false
}

// Whether an element has a `repeat`, and stands within another one.
fn repeats_within(classes: &[Middlebox], reach: &Reach, element: usize) -> bool
    requires few_classes { length classes.now ≤ 32 }
    requires count { reach.now.count ≡ length classes.now }
    requires element_in_range { element < length classes.now }
    ensures { result ≡ repeats_within (map tree classes.now) (is_shown reach.now) element }
{
    any_repeats(&classes[element].body) && stands_within(classes, reach, element)
}

/// The first element with a `repeat` that stands within another one.
pub(crate) fn first_repeater(classes: &[Middlebox], reach: &Reach) -> Option<u32>
    requires few_classes { length classes.now ≤ 32 }
    requires count { reach.now.count ≡ length classes.now }
    ensures { let is_within = repeats_within (map tree classes.now) (is_shown reach.now) in
        MatchOption result ((e : ℕ) → e < length classes.now → is_within e ≡ false)
        (λ e. (e < length classes.now) × (is_within e ≡ true) × ((k : ℕ) → k < e → is_within k ≡ false)) }
{
    for element in 0..classes.len() {
        if repeats_within(classes, reach, element) {
            return Some(element as u32);
        }
    }
    None
}
