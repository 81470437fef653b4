//! A slot table with one word or two in a key and in a value. Keys and values go in and come out as numbers.
ghost use Rattle.std.specs.Prelude.{map as list_map, ◌++◌};
ghost use Rattle.std.specs.Prelude.{◌≡◌, ℕ, ◌*◌, ◌<◌, ◌≤◌, ◌^◌, false, length, if◌then◌else◌, IfOk, IfSome, option_map};
ghost use Rattle.std.specs.FinMap as map;
ghost use Rattle.slot_table.specs.Table.{IsWords, IsLaidOut, held, is_table_full};
ghost use Rattle.slot_table.specs.declared.table.Slot.TheVariants.{Stored, Full};
ghost use Rattle.state_store.specs.Packing as packing;
ghost use Rattle.state_store.specs.Sizes as of;

use crate::packing::{number, words};
use gal_io::NoMemory;
use slot_table::{Slot, SlotTable};
use std::alloc::Global;

/// A table of one of the four sizes: the words of a key, and then those of a value.
#[derive(Drop)]
pub enum AnyTable {
    OneOne(SlotTable<1, 1>),
    OneTwo(SlotTable<1, 2>),
    TwoOne(SlotTable<2, 1>),
    TwoTwo(SlotTable<2, 2>),
}

macro_rules! at_each {
    ($any:expr, $table:ident => $body:expr) => {
        match $any {
            AnyTable::OneOne($table) => $body,
            AnyTable::OneTwo($table) => $body,
            AnyTable::TwoOne($table) => $body,
            AnyTable::TwoTwo($table) => $body,
        }
    };
}

/// A table without rows, with the memory for so many.
pub fn new(
    alloc: Global,
    key_words: usize,
    value_words: usize,
    capacity: usize,
) -> Result<AnyTable, NoMemory>
    requires keys { IsWords key_words }
    requires values { IsWords value_words }
    ensures rows { IfOk result (λ made. (of.table_of made).rows ≡ map.empty) }
    ensures capacity { IfOk result (λ made. (of.table_of made).capacity ≡ capacity) }
    ensures keys { IfOk result (λ made. of.key_words made ≡ key_words) }
    ensures values { IfOk result (λ made. of.value_words made ≡ value_words) }
{
    if key_words == 1 {
        if value_words == 1 {
            Ok(AnyTable::OneOne(SlotTable::new(alloc, capacity)?))
        } else {
            Ok(AnyTable::OneTwo(SlotTable::new(alloc, capacity)?))
        }
    } else if value_words == 1 {
        Ok(AnyTable::TwoOne(SlotTable::new(alloc, capacity)?))
    } else {
        Ok(AnyTable::TwoTwo(SlotTable::new(alloc, capacity)?))
    }
}

/// How many words a key has.
pub fn key_words(any: &AnyTable) -> usize
    ensures count { result ≡ of.key_words any.now }
    ensures words { IsWords result }
{
    match any {
        AnyTable::OneOne(_) | AnyTable::OneTwo(_) => 1,
        AnyTable::TwoOne(_) | AnyTable::TwoTwo(_) => 2,
    }
}

/// How many words a value has.
pub fn value_words(any: &AnyTable) -> usize
    ensures count { result ≡ of.value_words any.now }
    ensures words { IsWords result }
{
    match any {
        AnyTable::OneOne(_) | AnyTable::TwoOne(_) => 1,
        AnyTable::OneTwo(_) | AnyTable::TwoTwo(_) => 2,
    }
}

/// The value under a key.
pub fn look(any: &AnyTable, key: u128) -> Option<u128>
    requires { key < 2 ^ (64 * of.key_words any.now) }
    ensures value { result ≡ option_map packing.number
        (map.get (of.table_of any.now).rows (packing.words (of.key_words any.now) key)) }
    ensures below { IfSome result (λ value. value < 2 ^ (64 * of.value_words any.now)) }
{
    at_each!(any, table => match table.look(&words(key)) {
        Some(value) => Some(number(&value)),
        None => None,
    })
}

/// Sets the value under a key. At capacity a new key is refused.
pub fn insert(any: &mut AnyTable, key: u128, value: u128) -> Slot
    requires key { key < 2 ^ (64 * of.key_words any.old) }
    requires value { value < 2 ^ (64 * of.value_words any.old) }
    ensures answer { result
        ≡ (if is_table_full (of.table_of any.old) (packing.words (of.key_words any.old) key) then Full else Stored) }
    ensures rows { (of.table_of any.new).rows
        ≡ (if is_table_full (of.table_of any.old) (packing.words (of.key_words any.old) key)
        then (of.table_of any.old).rows
        else map.insert (of.table_of any.old).rows (packing.words (of.key_words any.old) key)
        (packing.words (of.value_words any.old) value)) }
    ensures capacity { (of.table_of any.new).capacity ≡ (of.table_of any.old).capacity }
    ensures keys { of.key_words any.new ≡ of.key_words any.old }
    ensures values { of.value_words any.new ≡ of.value_words any.old }
{
    at_each!(any, table => table.insert(words(key), words(value)))
}

/// Removes the row of a key. It answers whether there was one.
pub fn remove(any: &mut AnyTable, key: u128) -> bool
    requires { key < 2 ^ (64 * of.key_words any.old) }
    ensures was { result ≡ map.contains_key (of.table_of any.old).rows (packing.words (of.key_words any.old) key) }
    ensures rows { (of.table_of any.new).rows
        ≡ map.remove (of.table_of any.old).rows (packing.words (of.key_words any.old) key) }
    ensures capacity { (of.table_of any.new).capacity ≡ (of.table_of any.old).capacity }
    ensures keys { of.key_words any.new ≡ of.key_words any.old }
    ensures values { of.value_words any.new ≡ of.value_words any.old }
{
    at_each!(any, table => table.remove(&words(key)))
}

/// How many rows there are.
pub fn len(any: &AnyTable) -> usize
    ensures count { result ≡ map.len (of.table_of any.now).rows }
    ensures within { map.len (of.table_of any.now).rows ≤ (of.table_of any.now).capacity }
{
    at_each!(any, table => table.len())
}

/// How many slots there are. A walk over all of them meets each row once.
pub fn slots(any: &AnyTable) -> usize
    ensures count { result ≡ length (of.table_of any.now).slots }
    ensures rows { IsLaidOut (of.table_of any.now).rows (of.table_of any.now).slots }
{
    at_each!(any, table => table.slots())
}

/// The row in a slot, if it holds one.
pub fn slot(any: &AnyTable, i: usize) -> Option<(u128, u128)>
    requires { i < length (of.table_of any.now).slots }
    ensures held { result ≡ option_map of.row_numbers (held (of.table_of any.now).slots i) }
    ensures keys { IfSome result (λ row. row.0 < 2 ^ (64 * of.key_words any.now)) }
    ensures values { IfSome result (λ row. row.1 < 2 ^ (64 * of.value_words any.now)) }
{
    at_each!(any, table => match table.slot(i) {
        Some(row) => Some((number(&row.0), number(&row.1))),
        None => None,
    })
}

/// The rows as numbers, from slot to slot.
pub fn numbers(alloc: Global, any: &AnyTable) -> Result<Vec<(u128, u128)>, NoMemory>
    ensures rows { IfOk result (λ made.
        made.items ≡ list_map of.row_numbers (of.slot_rows (of.table_of any.now).slots)) }
    ensures laid { IfOk result (λ _. IsLaidOut (of.table_of any.now).rows (of.table_of any.now).slots) }
{
    at_each!(any, table => numbers_of(alloc, table))
}

// The rows of one table as numbers, from slot to slot. Behind the last row no slot is looked at.
fn numbers_of<const K: usize, const V: usize>(
    alloc: Global,
    table: &SlotTable<K, V>,
) -> Result<Vec<(u128, u128)>, NoMemory>
    requires keys { IsWords K }
    requires values { IsWords V }
    ensures rows { IfOk result (λ made. made.items ≡ list_map of.row_numbers (of.slot_rows table.now.slots)) }
    ensures laid { IfOk result (λ _. IsLaidOut table.now.rows table.now.slots) }
{
    let count = table.len();
    let slots = table.slots();
    let mut made = Vec::with_capacity(alloc, count)?;
    let mut from = 0;
    for _ in 0..count {
        let place = table.next_row(from);
        let Some(row) = table.slot(place) else {
            unreachable!()
        };
        made.push((number(&row.0), number(&row.1)))?;
        from = place + 1;
    }
    Ok(made)
}

/// The same table again, with memory of its own for as many rows.
pub fn copy(alloc: Global, any: &AnyTable, capacity: usize) -> Result<AnyTable, NoMemory>
    requires { capacity ≡ (of.table_of any.now).capacity }
    ensures rows { IfOk result (λ made. (of.table_of made).rows ≡ (of.table_of any.now).rows) }
    ensures capacity { IfOk result (λ made. (of.table_of made).capacity ≡ (of.table_of any.now).capacity) }
    ensures keys { IfOk result (λ made. of.key_words made ≡ of.key_words any.now) }
    ensures values { IfOk result (λ made. of.value_words made ≡ of.value_words any.now) }
{
    match any {
        AnyTable::OneOne(table) => Ok(AnyTable::OneOne(copy_table(alloc, table, capacity)?)),
        AnyTable::OneTwo(table) => Ok(AnyTable::OneTwo(copy_table(alloc, table, capacity)?)),
        AnyTable::TwoOne(table) => Ok(AnyTable::TwoOne(copy_table(alloc, table, capacity)?)),
        AnyTable::TwoTwo(table) => Ok(AnyTable::TwoTwo(copy_table(alloc, table, capacity)?)),
    }
}

// A table of the same rows.
fn copy_table<const K: usize, const V: usize>(
    alloc: Global,
    table: &SlotTable<K, V>,
    capacity: usize,
) -> Result<SlotTable<K, V>, NoMemory>
    requires keys { IsWords K }
    requires values { IsWords V }
    requires capacity { capacity ≡ table.now.capacity }
    ensures rows { IfOk result (λ made. made.rows ≡ table.now.rows) }
    ensures capacity { IfOk result (λ made. made.capacity ≡ table.now.capacity) }
{
    let mut made = SlotTable::new(alloc, capacity)?;
    let count = table.len();
    prove!(count <= capacity);
    let slots = table.slots();
    for i in 0..slots {
        let row = table.slot(i);
        put_slot(&mut made, row);
    }
    Ok(made)
}

// Stores what a slot holds.
fn put_slot<const K: usize, const V: usize>(
    made: &mut SlotTable<K, V>,
    slot: Option<([u64; K], [u64; V])>,
)
    requires keys { IsWords K }
    requires values { IsWords V }
    requires room { IfSome slot (λ _. map.len made.old.rows < made.old.capacity) }
    ensures rows { made.new.rows ≡ of.with_slot made.old.rows slot.entry }
    ensures capacity { made.new.capacity ≡ made.old.capacity }
{
    if let Some(row) = slot {
        made.insert(row.0, row.1);
    }
}
