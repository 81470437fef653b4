//! The rows of an object: by place or packed into a slot table while they fit there, and else in the order of their keys.
ghost use Rattle.std.specs.Prelude.{◌≡◌, ◌≤◌, not, length, None, vec_capacity, IfOk, IfSome, IsSome, if◌then◌else◌};
ghost use Rattle.std.specs.FinMap as map;
ghost use Rattle.state_store.specs.Bounded.{CanUnpack, HasSize, is_full_in, packed_answer, packed_after, stored_row};
ghost use Rattle.state_store.specs.Bounded.{packed_without, unpacked_entries};
ghost use Rattle.state_store.specs.Store.{rows_from, zeros_from};

use crate::fitted_rows::FittedRows;
use crate::listing::Listing;
use crate::packed_rows::{Kept, PackedRows};
use crate::placed_rows::PlacedRows;
use crate::rows::Rows;
use crate::sorted_rows::{del_sorted, get_sorted, list_rows, place, put_sorted, store_at};
use gal_bits::{Values, Widths};
use gal_io::NoMemory;
use std::alloc::Global;
use std::marker::Model;

/// Rows, and how many there may be. Those of a vector lie by place, others in a slot table. Where the declared widths have
/// no room there, from the first row on that hasn't these widths, and once a vector's row goes, they lie in the order of
/// their keys instead, for which memory is kept.
#[derive(Drop)]
pub struct KeptRows {
    size: usize,
    packed: Option<FittedRows>,
    sorted: Vec<(Values, Values)>,
}

impl Model for KeptRows {
    ghost use Rattle.std.specs.Prelude.{vec_capacity};
    ghost use Rattle.state_store.specs.Bounded.{Bounded, bounded_code, contents_in, IsKeptIn};

    ghost Value = { Bounded };

    ghost coded = { bounded_code };

    ghost view = { λ a. record { size = a.size; contents = contents_in a.packed a.sorted.items } };

    ghost invariant = { λ a. IsKeptIn a.packed a.sorted.items a.size (vec_capacity a.sorted) };
}

impl KeptRows {
    /// No rows yet, with the memory for so many. They may lie in a slot table if that is wanted.
    pub fn new(
        alloc: Global,
        keys: &Widths,
        values: &Widths,
        size: usize,
        in_slots: bool,
    ) -> Result<KeptRows, NoMemory>
        ensures { IfOk result (λ made. made ≡ record { size = size; contents = map.empty }) }
    {
        let packed = new_packed(alloc, keys, values, size, in_slots)?;
        let sorted = Vec::with_capacity(alloc, size)?;
        Ok(KeptRows {
            size,
            packed,
            sorted,
        })
    }

    /// A row of zeros for each number below a length, by place.
    pub fn zeros(
        alloc: Global,
        keys: &Widths,
        values: &Widths,
        size: u32,
    ) -> Result<KeptRows, NoMemory>
        ensures { IfOk result (λ made.
            made ≡ record { size = size; contents = zeros_from size 0 (length values.now) map.empty }) }
    {
        let rows = PlacedRows::new(alloc, keys, values, size)?;
        let sorted = Vec::with_capacity(alloc, size as usize)?;
        Ok(KeptRows {
            size: size as usize,
            packed: Some(FittedRows::placed(rows)),
            sorted,
        })
    }

    /// The values under a key.
    pub fn get(&self, key: &Values) -> Option<Values>
        ensures { result ≡ map.get self.now.contents key.now }
    {
        match &self.packed {
            Some(rows) => rows.get(key),
            None => get_sorted(&self.sorted, key),
        }
    }

    /// Sets one row, and answers whether there was room for it. This takes no memory.
    pub fn put(&mut self, key: &Values, values: &Values) -> bool
        ensures stored { result ≡ not (is_full_in self.old key.now) }
        ensures after { self.new ≡ (if is_full_in self.old key.now then self.old
            else stored_row self.old key.now values.now) }
    {
        match put_packed(&mut self.packed, key, values) {
            Kept::Stored => true,
            Kept::Full => false,
            Kept::Misfit => {
                unpack(&mut self.packed, &mut self.sorted);
                put_sorted(&mut self.sorted, self.size, key, values)
            }
        }
    }

    /// Sets one row, also where there may be no more.
    pub fn set(&mut self, key: &Values, values: &Values) -> Result<(), NoMemory>
        ensures row { IfOk result (λ _. self.new ≡ stored_row self.old key.now values.now) }
        ensures size { self.new.size ≡ self.old.size }
    {
        match put_packed(&mut self.packed, key, values) {
            Kept::Stored => Ok(()),
            Kept::Full | Kept::Misfit => {
                unpack(&mut self.packed, &mut self.sorted);
                let found = place(&self.sorted, key);
                store_at(&mut self.sorted, found, key, values)
            }
        }
    }

    /// Removes one row. It answers whether there was one.
    pub fn del(&mut self, key: &Values) -> bool
        ensures was { result ≡ map.contains_key self.old.contents key.now }
        ensures after { self.new ≡ record self.old { contents = map.remove self.old.contents key.now } }
    {
        match del_packed(&mut self.packed, key) {
            Some(was) => was,
            None => {
                unpack(&mut self.packed, &mut self.sorted);
                del_sorted(&mut self.sorted, key)
            }
        }
    }

    /// The rows, in rising order of their keys, as they lie in memory.
    pub fn list(&self, alloc: Global) -> Result<Listing, NoMemory>
        ensures { IfOk result (λ made. made ≡ rows_from (map.entries self.now.contents)) }
    {
        match &self.packed {
            Some(rows) => rows.list(alloc),
            None => Ok(Listing::plain(list_rows(alloc, &self.sorted)?)),
        }
    }

    /// The rows, in rising order of their keys.
    pub fn rows(&self, alloc: Global) -> Result<Rows, NoMemory>
        ensures { IfOk result (λ rows. rows ≡ rows_from (map.entries self.now.contents)) }
    {
        match &self.packed {
            Some(rows) => rows.rows(alloc),
            None => list_rows(alloc, &self.sorted),
        }
    }

    /// The same rows again, with memory of their own for as many.
    pub fn copy(&self, alloc: Global) -> Result<KeptRows, NoMemory>
        ensures { IfOk result (λ made. made ≡ self.now) }
    {
        let mut sorted = Vec::with_capacity(alloc, self.sorted.capacity())?;
        sorted.extend_from_slice(&self.sorted)?;
        Ok(KeptRows {
            size: self.size,
            packed: copy_packed(alloc, &self.packed, self.size)?,
            sorted,
        })
    }
}

// Packed rows, where they are wanted and the widths have room.
fn new_packed(
    alloc: Global,
    keys: &Widths,
    values: &Widths,
    size: usize,
    in_slots: bool,
) -> Result<Option<FittedRows>, NoMemory>
    ensures { IfOk result (λ made.
        IfSome made (λ rows. rows
        ≡ record { keys = keys.now; values = values.now; capacity = size; contents = map.empty })) }
{
    if !in_slots {
        return Ok(None);
    }
    match PackedRows::new(alloc, keys, values, size)? {
        Some(rows) => Ok(Some(FittedRows::packed(rows))),
        None => Ok(None),
    }
}

// Puts a row among the packed ones, where there are any.
fn put_packed(packed: &mut Option<FittedRows>, key: &Values, values: &Values) -> Kept
    ensures answer { result ≡ packed_answer packed.old key.now values.now }
    ensures after { packed.new ≡ packed_after packed.old key.now values.now }
{
    match packed {
        Some(rows) => rows.put(key, values),
        None => Kept::Misfit,
    }
}

// Removes a row of the packed ones, where there are any and they may go.
fn del_packed(packed: &mut Option<FittedRows>, key: &Values) -> Option<bool>
    ensures was { IfSome result (λ was. IfSome packed.old (λ rows. was ≡ map.contains_key rows.contents key.now)) }
    ensures after { IsSome result → packed.new ≡ packed_without packed.old key.now }
    ensures stays { result ≡ None → packed.new ≡ packed.old }
    ensures was_packed { IsSome result → IsSome packed.old }
{
    match packed {
        Some(rows) => rows.del(key),
        None => None,
    }
}

// The same packed rows again.
fn copy_packed(
    alloc: Global,
    packed: &Option<FittedRows>,
    size: usize,
) -> Result<Option<FittedRows>, NoMemory>
    requires { HasSize packed.now size }
    ensures { IfOk result (λ made. made ≡ packed.now) }
{
    match packed {
        Some(rows) => Ok(Some(rows.copy(alloc, size)?)),
        None => Ok(None),
    }
}

// Moves packed rows among the sorted ones, in the memory that is there.
fn unpack(packed: &mut Option<FittedRows>, sorted: &mut Vec<(Values, Values)>)
    requires { CanUnpack packed.old sorted.old.items (vec_capacity sorted.old) }
    ensures none { packed.new ≡ None }
    ensures rows { sorted.new.items ≡ unpacked_entries packed.old sorted.old.items }
    ensures capacity { vec_capacity sorted.old ≤ vec_capacity sorted.new }
{
    if let Some(rows) = &*packed {
        let count = rows.len();
        prove!(count <= sorted.capacity());
        let _ = rows.pour(sorted);
    }
    *packed = None;
}
