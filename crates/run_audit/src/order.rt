//! The order of a report.
ghost use Rattle.std.specs.Prelude.{◌≡◌, ◌<◌, ◌^◌, length, IfOk, MatchOption};
ghost use Rattle.run_audit.specs.Order.{InOrder, IsFirstApart, IsMisplaced};

use gal_io::NoMemory;
use run_model::{Run, order};
use std::alloc::Global;

// The number that is told at the first place at which it isn't the one that is wanted, or the wanted one where no more
// are told.
fn first_apart(told: &[u32], wanted: &[u32]) -> Option<u32>
    ensures { MatchOption result (told.now ≡ wanted.now) (λ p. IsFirstApart told.now wanted.now p) }
{
    for place in 0..told.len() {
        let number = told[place];
        if place >= wanted.len() || wanted[place] != number {
            return Some(number);
        }
    }
    if told.len() < wanted.len() {
        return Some(wanted[told.len()]);
    }
    None
}

/// The first number of the order that stands at a wrong place, if there is one.
pub(crate) fn first_misplaced(alloc: Global, run: &Run) -> Result<Option<u32>, NoMemory>
    requires { length run.now.fates < 2 ^ 32 }
    ensures { IfOk result (λ found. MatchOption found (InOrder run.now) (λ p. IsMisplaced run.now p)) }
{
    let wanted = order(alloc, &run.fates)?;
    Ok(first_apart(run.order.as_slice(), wanted.as_slice()))
}
