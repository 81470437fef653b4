//! Lists of numbers and declarations of objects.
use gal_bits::{Values, Widths};
use gal_io::{Bytes, NoMemory};
use state_store::{Kind, ObjectDecl, Rows};
use std::alloc::Global;

// At most the first 8 numbers.
pub(crate) fn values(numbers: &[u64]) -> Values {
    let mut list = Values::new();
    for number in numbers {
        if list.len() < 8 {
            list.push(*number);
        }
    }
    list
}

// At most 8 times this width.
pub(crate) fn widths(bits: u64, count: usize) -> Widths {
    let mut list = Widths::new();
    for _ in 0..count {
        if list.len() < 8 {
            list.push(bits);
        }
    }
    list
}

// Without rows, and 0 at the start.
pub(crate) fn declared(
    alloc: Global,
    kind: Kind,
    keys: Widths,
    values: Widths,
    size: u32,
) -> Result<ObjectDecl, NoMemory> {
    Ok(ObjectDecl {
        name: Bytes::from_slice(alloc, b"object")?,
        kind,
        keys,
        values,
        size,
        start: 0,
        rows: Rows::new(alloc),
    })
}
