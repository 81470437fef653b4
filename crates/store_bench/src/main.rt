//! Makes the largest map, fills it and lists it, with keys in the order that a word names. `bench/store` times this
//! program.
#![tactic(auto)]

use gal_bits::{Values, Widths};
use gal_io::{Bytes, NoMemory};
use state_store::{Kind, Listing, ObjectDecl, Objects, Put, Rows, Store};
use std::alloc::Global;
use std::env;
use std::process::ExitCode;

// The most rows that an object may have.
const ROWS: u32 = 1_048_576;

// The only object.
const MAP: u32 = 0;

/// The order in which keys are stored.
#[derive(Clone, Copy)]
enum Order {
    Rising,
    Falling,
    /// In no order.
    Scattered,
    /// Rising, and each is a multiple of a high power of two: all but its first two numbers are 0.
    High,
}

impl Order {
    // The order of a name.
    fn of(name: &str) -> Order {
        if name == "falling" {
            Order::Falling
        } else if name == "scattered" {
            Order::Scattered
        } else if name == "high" {
            Order::High
        } else {
            Order::Rising
        }
    }
}

fn widths() -> Widths {
    let mut widths = Widths::new();
    for _ in 0..8 {
        if widths.len() < 8 {
            widths.push(16);
        }
    }
    widths
}

// The key with this place in the order, of 8 numbers of 16 bits.
fn key(order: Order, place: u32) -> Values {
    let number = match order {
        Order::Rising | Order::High => u64::from(place),
        Order::Falling => u64::from(u32::MAX - place),
        Order::Scattered => u64::from(place) * 649_657 % u64::from(ROWS),
    };
    let high = number / 65_536;
    let low = number % 65_536;
    match order {
        Order::High => values(&[high, low, 0, 0, 0, 0, 0, 0]),
        Order::Rising | Order::Falling | Order::Scattered => values(&[0, 0, 0, 0, 0, 0, high, low]),
    }
}

// At most the first 8 numbers.
fn values(numbers: &[u64]) -> Values {
    let mut values = Values::new();
    for number in numbers {
        if values.len() < 8 {
            values.push(*number);
        }
    }
    values
}

// One map with room for the most rows, whose keys and values are the widest.
fn objects(alloc: Global) -> Result<Objects, NoMemory> {
    let mut objects = Objects::new(alloc);
    objects.push(ObjectDecl {
        name: Bytes::from_slice(alloc, b"rows")?,
        kind: Kind::Map,
        keys: widths(),
        values: widths(),
        size: ROWS,
        start: 0,
        rows: Rows::new(alloc),
    })?;
    Ok(objects)
}

// Stores so many rows, each of which has a place.
fn fill(store: &mut Store, order: Order) -> bool {
    for place in 0..ROWS {
        let key = key(order, place);
        if store.put(MAP, &key, &key) != Put::Stored {
            return false;
        }
    }
    true
}

// Whether each row is found again.
fn finds_all(store: &Store, order: Order) -> bool {
    for place in 0..ROWS {
        if !store.get(MAP, &key(order, place)).found {
            return false;
        }
    }
    true
}

// How many rows are listed, where all could be stored, one more couldn't, and all are found.
fn list(alloc: Global, order: Order) -> Result<Option<usize>, NoMemory> {
    let mut store = Store::new(alloc, &objects(alloc)?)?;
    let filled = fill(&mut store, order);
    let other = values(&[1, 1, 1, 1, 1, 1, 1, 1]);
    let full = store.put(MAP, &other, &other) == Put::Full;
    if !filled || !full || !finds_all(&store, order) {
        return Ok(None);
    }
    Ok(Some(walked(&store.list(alloc, MAP)?)))
}

// How many rows a listing has, gone through one by one.
fn walked(listing: &Listing) -> usize {
    let mut count = 0;
    for place in 0..listing.len() {
        if listing.get(place).is_some() && count < usize::MAX {
            count += 1;
        }
    }
    count
}

fn main(rt: HostRuntime) -> ExitCode {
    let alloc = rt.alloc();
    let mut order = Order::Rising;
    if let Ok(words) = env::args(&rt) {
        for word in words.skip(1) {
            order = Order::of(word.as_str());
        }
    }
    let Ok(Some(listed)) = list(alloc, order) else {
        return ExitCode::FAILURE;
    };
    match println!(rt; "{listed} rows were stored, found and listed") {
        Ok(()) => ExitCode::SUCCESS,
        Err(_) => ExitCode::FAILURE,
    }
}
