//! Rows in the order of their keys, still packed.
ghost use Rattle.std.specs.Prelude.{◌≡◌, ◌≤◌, ◌<◌, ◌^◌, IfOk, IsTrue, length, slice_get};
ghost use Rattle.state_store.specs.Listing.{HoldsRows, row_of_numbers, rows_of_numbers};
ghost use Rattle.state_store.specs.Packing.{have_room};

use crate::object::Row;
use crate::packing::parts;
use crate::rows::Rows;
use gal_bits::Widths;
use gal_io::NoMemory;
use std::alloc::Global;
use std::marker::Model;

/// Rows whose keys and values have declared widths. A row takes 32 bytes.
#[derive(Drop)]
pub struct PackedList {
    keys: Widths,
    values: Widths,
    key_bits: u64,
    value_bits: u64,
    numbers: Vec<(u128, u128)>,
}

impl Model for PackedList {
    ghost use Rattle.std.specs.Prelude.{List};
    ghost use Rattle.state_store.specs.declared.object.Row.{Row};
    ghost use Rattle.state_store.specs.Listing.{HoldsRows, rows_of_numbers};

    ghost Value = { List Row };

    ghost view = { λ a. rows_of_numbers a.key_bits a.value_bits a.keys a.values a.numbers.items };

    ghost invariant = { λ a. HoldsRows a.key_bits a.value_bits a.keys a.values a.numbers.items };
}

impl PackedList {
    /// The rows that pairs of numbers hold.
    pub fn new(
        keys: Widths,
        values: Widths,
        key_bits: u64,
        value_bits: u64,
        numbers: Vec<(u128, u128)>,
    ) -> PackedList
        requires { HoldsRows key_bits value_bits keys values numbers.items }
        ensures { result ≡ rows_of_numbers key_bits value_bits keys values numbers.items }
    {
        PackedList {
            keys,
            values,
            key_bits,
            value_bits,
            numbers,
        }
    }

    /// How many rows there are.
    pub fn len(&self) -> usize
        ensures { result ≡ length self.now }
    {
        self.numbers.len()
    }

    /// The rows one by one.
    pub fn to_rows(&self, alloc: Global) -> Result<Rows, NoMemory>
        ensures { IfOk result (λ made. made ≡ self.now) }
    {
        unpacked(
            alloc,
            self.key_bits,
            self.value_bits,
            &self.keys,
            &self.values,
            &self.numbers,
        )
    }

    /// The row at a place.
    pub fn get(&self, place: usize) -> Option<Row>
        ensures { result ≡ slice_get self.now place }
    {
        match self.numbers.get(place) {
            Some(numbers) => Some(row(
                self.key_bits,
                self.value_bits,
                &self.keys,
                &self.values,
                *numbers,
            )),
            None => None,
        }
    }
}

// The row that two numbers hold.
fn row(key_bits: u64, value_bits: u64, keys: &Widths, values: &Widths, numbers: (u128, u128)) -> Row
    requires few_key_bits { key_bits ≤ 128 }
    requires few_value_bits { value_bits ≤ 128 }
    requires key_room { IsTrue (have_room key_bits keys.now) }
    requires value_room { IsTrue (have_room value_bits values.now) }
    requires key { numbers.0 < 2 ^ key_bits }
    requires value { numbers.1 < 2 ^ value_bits }
    ensures { result ≡ row_of_numbers key_bits value_bits keys.now values.now numbers }
{
    Row {
        keys: parts(key_bits, keys, numbers.0),
        values: parts(value_bits, values, numbers.1),
    }
}

// The rows that pairs of numbers hold.
fn unpacked(
    alloc: Global,
    key_bits: u64,
    value_bits: u64,
    keys: &Widths,
    values: &Widths,
    numbers: &[(u128, u128)],
) -> Result<Rows, NoMemory>
    requires { HoldsRows key_bits value_bits keys.now values.now numbers.now }
    ensures { IfOk result (λ made. made ≡ rows_of_numbers key_bits value_bits keys.now values.now numbers.now) }
{
    let mut rows = Rows::with_capacity(alloc, keys.len(), values.len(), numbers.len())?;
    for pair in numbers {
        let key = parts(key_bits, keys, pair.0);
        let value = parts(value_bits, values, pair.1);
        rows.push_values(&key, &value)?;
    }
    Ok(rows)
}
