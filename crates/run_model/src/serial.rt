//! The serial order of a run.
ghost use Rattle.std.specs.Prelude.{◌≡◌, ◌<◌, ◌^◌, IfOk, length, map};
ghost use Rattle.run_model.specs.Order.{decided_from, decided_of, order_of, sorted};

use crate::fate::{Fate, Fates};
use crate::run::Order;
use gal_io::NoMemory;
use std::alloc::Global;

/// Where a decided packet stands in the serial order: the version and the event that decided it, and its number. One
/// stands before another by the first of these in which they differ.
#[derive(Clone, Copy, PartialEq, Eq, PartialOrd, Ord)]
pub struct Decided {
    pub version: u32,
    pub event: u32,
    pub number: u32,
}

// Where a packet of this number and fate stands, if it is decided.
fn place_of(number: u32, fate: &Fate) -> Option<Decided>
    ensures { result ≡ decided_of number fate.now }
{
    match fate {
        Fate::Pass { .. } | Fate::Up { .. } => None,
        Fate::Held {
            decided,
            version,
            ..
        }
        | Fate::Slow {
            decided,
            version,
            ..
        }
        | Fate::Fast {
            decided,
            version,
            ..
        } => Some(Decided {
            version: *version,
            event: *decided,
            number,
        }),
    }
}

// The decided packets, by number.
fn all_decided(alloc: Global, fates: &[Fate]) -> Result<Vec<Decided>, NoMemory>
    requires { length fates.now < 2 ^ 32 }
    ensures { IfOk result (λ decided. decided.items ≡ decided_from 0 fates.now) }
{
    let mut decided = Vec::new(alloc);
    for number in 0..fates.len() {
        if let Some(place) = place_of(number as u32, &fates[number]) {
            decided.push(place)?;
        }
    }
    Ok(decided)
}

// The decided packets, in serial order.
fn all_sorted(alloc: Global, fates: &[Fate]) -> Result<Vec<Decided>, NoMemory>
    requires { length fates.now < 2 ^ 32 }
    ensures { IfOk result (λ decided. decided.items ≡ sorted (decided_from 0 fates.now)) }
{
    let mut decided = all_decided(alloc, fates)?;
    decided.sort_unstable();
    Ok(decided)
}

/// The numbers of the decided packets in serial order: by the version that decided them, those of one version by the
/// event that decided them, and those of one event by number.
pub fn order(alloc: Global, fates: &Fates) -> Result<Order, NoMemory>
    requires { length fates.now < 2 ^ 32 }
    ensures { IfOk result (λ order. order ≡ order_of fates.now) }
{
    let decided = all_sorted(alloc, fates.as_slice())?;
    let mut numbers = Vec::new(alloc);
    for place in &decided {
        numbers.push(place.number)?;
    }
    Ok(Order::from(numbers))
}
