//! Release against admission.
ghost use Rattle.std.specs.Prelude.{◌≡◌, slice_get, MatchOption};
ghost use Rattle.run_model.specs.Serialises.{admitted_at, released_at};
ghost use Rattle.run_audit.specs.Told.{Respects, IsLate, IsFirst};
ghost use Rattle.run_audit.specs.Walk.{release_of, least_of, is_above, late_in};

use run_model::{Fate, Run};

// The event that admitted the packet of a number, if there is one.
fn admitted_at(fates: &[Fate], number: u32) -> Option<u32>
    ensures { result ≡ admitted_at (slice_get fates.now number) }
{
    match fates.get(number as usize)? {
        Fate::Pass { admitted }
        | Fate::Up { admitted }
        | Fate::Held { admitted, .. }
        | Fate::Slow { admitted, .. }
        | Fate::Fast { admitted, .. } => Some(*admitted),
    }
}

// The event that released it.
fn released_at(fates: &[Fate], number: u32) -> Option<u32>
    ensures { result ≡ release_of (slice_get fates.now number) }
{
    match fates.get(number as usize)? {
        Fate::Pass { .. } | Fate::Up { .. } | Fate::Held { .. } => None,
        Fate::Slow { released, .. } | Fate::Fast { released, .. } => Some(*released),
    }
}

// The lesser of two events, of which either may be missing.
fn earlier(first: Option<u32>, other: Option<u32>) -> Option<u32>
    ensures { result ≡ least_of first other }
{
    match (first, other) {
        (Some(first), Some(other)) => Some(first.min(other)),
        (Some(event), None) | (None, Some(event)) => Some(event),
        (None, None) => None,
    }
}

// Whether both are there, and the first is above the other.
fn is_above(event: Option<u32>, other: Option<u32>) -> bool
    ensures { result ≡ is_above event other }
{
    match (event, other) {
        (Some(event), Some(other)) => event > other,
        _ => false,
    }
}

// The walk goes from the end of the order: so far, `least` is the earliest release from a place on, and `late` the
// first packet from there on that was admitted behind one.
fn late_in_order(fates: &[Fate], order: &[u32]) -> Option<u32>
    ensures { result ≡ late_in fates.now order.now }
{
    let mut least = None;
    let mut late = None;
    for place in (0..order.len()).rev() {
        let number = order[place];
        least = earlier(released_at(fates, number), least);
        if is_above(admitted_at(fates, number), least) {
            late = Some(number);
        }
    }
    late
}

/// The first packet in the order that was admitted after one was released that doesn't stand before it.
pub(crate) fn first_late(run: &Run) -> Option<u32>
    ensures { MatchOption result (Respects run.now)
        (λ p. IsFirst (IsLate run.now.fates run.now.order) run.now.order p) }
{
    late_in_order(run.fates.as_slice(), run.order.as_slice())
}
