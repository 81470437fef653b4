//! Rows of declared widths, packed into the words of a slot table.
ghost use Rattle.std.specs.Prelude.{◌≡◌, ◌≤◌, ◌<◌, ◌*◌, ◌^◌, ◌++◌, ℕ, [], None, length, vec_capacity, vec_len, IfOk};
ghost use Rattle.std.specs.Prelude.{IfSome, IsOk};
ghost use Rattle.std.specs.FinMap as map;
ghost use Rattle.std.specs.Prelude.{map as list_map};
ghost use Rattle.state_store.specs.Fitted.{IsRoomy, keep_answer, kept_by, kept_row, packing_of, unpacked_row};
ghost use Rattle.state_store.specs.Sizes.{key_words, unpacked_entries, slot_rows, table_of, value_words};
ghost use Rattle.state_store.specs.Store.{rows_from};
ghost use Rattle.slot_table.specs.Table.{IsLaidOut};

use crate::any_table::{self, AnyTable};
use crate::packed_list::PackedList;
use crate::packing::{packed, parts, words_for};
use gal_bits::{Values, Widths};
use gal_io::NoMemory;
use slot_table::Slot;
use std::alloc::Global;
use std::marker::Model;

/// What a put did.
#[derive(Clone, Copy, PartialEq, Eq)]
pub enum Kept {
    /// The row is stored.
    Stored,
    /// There is no room and the key is new. Nothing has changed.
    Full,
    /// The row hasn't the declared widths. Nothing has changed.
    Misfit,
}

/// Rows whose keys and values have declared widths, each list in one word or two.
#[derive(Drop)]
pub struct PackedRows {
    keys: Widths,
    values: Widths,
    table: AnyTable,
}

impl Model for PackedRows {
    ghost use Rattle.std.specs.FinMap.{entries};
    ghost use Rattle.state_store.specs.Fitted.{Fitted, fitted_code, HoldsPacked, contents_of, packing_of};
    ghost use Rattle.state_store.specs.Sizes.{table_of};

    ghost Value = { Fitted };

    ghost coded = { fitted_code };

    ghost view = { λ a. let table = table_of a.table in
        record {
          keys = a.keys;
          values = a.values;
          capacity = table.capacity;
          contents = contents_of (packing_of a.keys a.values a.table) table.rows;
        } };

    ghost invariant = { λ a. HoldsPacked (packing_of a.keys a.values a.table) (table_of a.table).rows };
}

impl PackedRows {
    /// No rows yet, with the memory for so many, where keys and values of these widths have room in two words each.
    pub fn new(
        alloc: Global,
        keys: &Widths,
        values: &Widths,
        capacity: usize,
    ) -> Result<Option<PackedRows>, NoMemory>
        ensures { IfOk result (λ made.
            IfSome made (λ rows. rows
            ≡ record { keys = keys.now; values = values.now; capacity = capacity; contents = map.empty })) }
    {
        let Some(key_words) = words_for(keys.as_slice()) else {
            return Ok(None);
        };
        let Some(value_words) = words_for(values.as_slice()) else {
            return Ok(None);
        };
        let table = any_table::new(alloc, key_words, value_words, capacity)?;
        Ok(Some(PackedRows {
            keys: *keys,
            values: *values,
            table,
        }))
    }

    /// The values under a key.
    pub fn get(&self, key: &Values) -> Option<Values>
        ensures { result ≡ map.get self.now.contents key.now }
    {
        let Some(whole) = packed(key_bits(&self.table), self.keys.as_slice(), key.as_slice()) else {
            return None;
        };
        match any_table::look(&self.table, whole) {
            Some(value) => Some(parts(value_bits(&self.table), &self.values, value)),
            None => None,
        }
    }

    /// Sets one row.
    pub fn put(&mut self, key: &Values, values: &Values) -> Kept
        ensures answer { result ≡ keep_answer self.old key.now values.now }
        ensures after { self.new ≡ kept_row self.old key.now values.now }
    {
        let Some(whole) = packed(key_bits(&self.table), self.keys.as_slice(), key.as_slice()) else {
            return Kept::Misfit;
        };
        let Some(value) = packed(
            value_bits(&self.table),
            self.values.as_slice(),
            values.as_slice(),
        ) else {
            return Kept::Misfit;
        };
        answer_to(any_table::insert(&mut self.table, whole, value))
    }

    /// Removes one row. It answers whether there was one.
    pub fn del(&mut self, key: &Values) -> bool
        ensures was { result ≡ map.contains_key self.old.contents key.now }
        ensures after { self.new ≡ record self.old { contents = map.remove self.old.contents key.now } }
    {
        let Some(whole) = packed(key_bits(&self.table), self.keys.as_slice(), key.as_slice()) else {
            return false;
        };
        any_table::remove(&mut self.table, whole)
    }

    /// How many rows there are.
    pub fn len(&self) -> usize
        ensures count { result ≡ map.len self.now.contents }
        ensures within { map.len self.now.contents ≤ self.now.capacity }
    {
        any_table::len(&self.table)
    }

    /// The rows in rising order of their keys, still packed.
    pub fn list(&self, alloc: Global) -> Result<PackedList, NoMemory>
        ensures { IfOk result (λ made. made ≡ rows_from (map.entries self.now.contents)) }
    {
        let mut numbers = any_table::numbers(alloc, &self.table)?;
        numbers.sort_unstable();
        Ok(PackedList::new(
            self.keys,
            self.values,
            key_bits(&self.table),
            value_bits(&self.table),
            numbers,
        ))
    }

    /// Lists the rows in rising order of their keys.
    pub fn pour(&self, rows: &mut Vec<(Values, Values)>) -> Result<(), NoMemory>
        requires { rows.old.items ≡ [] }
        ensures rows { IfOk result (λ _. rows.new.items ≡ map.entries self.now.contents) }
        ensures capacity { vec_capacity rows.old ≤ vec_capacity rows.new }
        ensures room { map.len self.now.contents ≤ vec_capacity rows.old → IsOk result }
    {
        list_slots(&self.table, &self.keys, &self.values, rows)?;
        rows.sort_unstable();
        Ok(())
    }

    /// The same rows again, with memory of their own for as many.
    pub fn copy(&self, alloc: Global, capacity: usize) -> Result<PackedRows, NoMemory>
        requires { capacity ≡ self.now.capacity }
        ensures { IfOk result (λ made. made ≡ self.now) }
    {
        let table = any_table::copy(alloc, &self.table, capacity)?;
        Ok(PackedRows {
            keys: self.keys,
            values: self.values,
            table,
        })
    }
}

// Lists the rows of a table from slot to slot.
fn list_slots(
    table: &AnyTable,
    keys: &Widths,
    values: &Widths,
    rows: &mut Vec<(Values, Values)>,
) -> Result<(), NoMemory>
    requires roomy { IsRoomy (packing_of keys.now values.now table.now) }
    requires empty { rows.old.items ≡ [] }
    ensures rows { IfOk result
        (λ _. rows.new.items ≡ list_map (unpacked_row (packing_of keys.now values.now table.now))
        (slot_rows (table_of table.now).slots)) }
    ensures laid { IsLaidOut (table_of table.now).rows (table_of table.now).slots }
    ensures capacity { vec_capacity rows.old ≤ vec_capacity rows.new }
    ensures room { length (slot_rows (table_of table.now).slots) ≤ vec_capacity rows.old → IsOk result }
{
    let slots = any_table::slots(table);
    for i in 0..slots {
        let row = any_table::slot(table, i);
        push_slot(table, keys, values, row, rows)?;
    }
    Ok(())
}

// Lists what a slot holds.
fn push_slot(
    table: &AnyTable,
    keys: &Widths,
    values: &Widths,
    slot: Option<(u128, u128)>,
    rows: &mut Vec<(Values, Values)>,
) -> Result<(), NoMemory>
    requires roomy { IsRoomy (packing_of keys.now values.now table.now) }
    requires keys { IfSome slot (λ row. row.0 < 2 ^ (64 * key_words table.now)) }
    requires values { IfSome slot (λ row. row.1 < 2 ^ (64 * value_words table.now)) }
    ensures rows { IfOk result
        (λ _. rows.new.items ≡ rows.old.items
        ++ unpacked_entries (key_words table.now) (value_words table.now) keys.now values.now slot) }
    ensures capacity { vec_capacity rows.old ≤ vec_capacity rows.new }
    ensures none { slot ≡ None → IsOk result }
    ensures room { vec_len rows.old < vec_capacity rows.old → IsOk result }
{
    match slot {
        Some((key, value)) => {
            let key = parts(key_bits(table), keys, key);
            let value = parts(value_bits(table), values, value);
            rows.push((key, value))?;
            Ok(())
        }
        None => Ok(()),
    }
}

// What an insert into the table says of the row.
fn answer_to(slot: Slot) -> Kept
    ensures { result ≡ kept_by slot }
{
    match slot {
        Slot::Stored => Kept::Stored,
        Slot::Full => Kept::Full,
    }
}

// How many bits a key has.
fn key_bits(table: &AnyTable) -> u64
    ensures value { result ≡ 64 * key_words table.now }
    ensures most { result ≤ 128 }
{
    64 * any_table::key_words(table) as u64
}

// How many bits a value has.
fn value_bits(table: &AnyTable) -> u64
    ensures value { result ≡ 64 * value_words table.now }
    ensures most { result ≤ 128 }
{
    64 * any_table::value_words(table) as u64
}
