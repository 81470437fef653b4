//! The limits file, read.
ghost use Rattle.std.specs.Prelude.{◌≡◌, ◌≤◌, Some, None, option_map, IfSome, IfOk, IfErr};
ghost use Rattle.std.specs.List.{find};
ghost use Rattle.toml.specs.Data.{get_member};
ghost use Rattle.toml.specs.View.{table_view, view};
ghost use Rattle.resource_limits.specs.Limits.{AreInRange, HasLimits, TellsLimits, fault_of, has_other_key, highest};
ghost use Rattle.resource_limits.specs.Limits.{is_missing, is_name, keys, lowest, name_of, number_at, refusal_of};
ghost use Rattle.resource_limits.specs.Limits.{whole_in};
ghost use Rattle.resource_limits.specs.declared.limits.LimitsError.{LimitsError};

use crate::limits::{Key, Limits, LimitsError};
use std::alloc::Global;
use toml::{Table, Value};

/// The limits that the text of a limits file tells. The order of the keys in the text plays no part.
pub fn read_limits(alloc: Global, text: &[u8]) -> Result<Limits, LimitsError>
    ensures ok { IfOk result (TellsLimits text.now) }
    ensures good { IfOk result (λ _. refusal_of text.now ≡ None) }
    ensures refused { IfErr result (λ e. ¬ (e ≡ LimitsError.NoMemory) → refusal_of text.now ≡ Some e) }
    ensures in_range { IfOk result AreInRange }
{
    match toml::table_from_slice(alloc, text) {
        Ok(table) => limits_of(&table),
        Err(error) => {
            if error.is_memory() {
                Err(LimitsError::NoMemory)
            } else {
                Err(LimitsError::Toml)
            }
        }
    }
}

// The limits of a table, or its first fault.
fn limits_of(table: &Table) -> Result<Limits, LimitsError>
    ensures ok { IfOk result (HasLimits (table_view table.now)) }
    ensures good { IfOk result (λ _. fault_of (table_view table.now) ≡ None) }
    ensures refused { IfErr result (λ e. fault_of (table_view table.now) ≡ Some e) }
    ensures in_range { IfOk result AreInRange }
{
    if let Some(key) = first_missing(table) {
        return Err(LimitsError::Missing(key));
    }
    if other_key(table) {
        return Err(LimitsError::Unknown);
    }
    let table_bits = match number_at(table, Key::TableBits) {
        Some(number) => number,
        None => return Err(LimitsError::Range(Key::TableBits)),
    };
    let stages = match number_at(table, Key::Stages) {
        Some(number) => number,
        None => return Err(LimitsError::Range(Key::Stages)),
    };
    let writeback = match number_at(table, Key::Writeback) {
        Some(number) => number,
        None => return Err(LimitsError::Range(Key::Writeback)),
    };
    let transfer_bytes = match number_at(table, Key::TransferBytes) {
        Some(number) => number,
        None => return Err(LimitsError::Range(Key::TransferBytes)),
    };
    Ok(Limits {
        table_bits,
        stages: stages as u32,
        writeback: writeback as u32,
        transfer_bytes: transfer_bytes as u32,
    })
}

// The first key that the table hasn't.
fn first_missing(table: &Table) -> Option<Key>
    ensures { result ≡ find (is_missing (table_view table.now)) keys }
{
    if is_missing(table, Key::TableBits) {
        Some(Key::TableBits)
    } else if is_missing(table, Key::Stages) {
        Some(Key::Stages)
    } else if is_missing(table, Key::Writeback) {
        Some(Key::Writeback)
    } else if is_missing(table, Key::TransferBytes) {
        Some(Key::TransferBytes)
    } else {
        None
    }
}

fn is_missing(table: &Table, key: Key) -> bool
    ensures { result ≡ is_missing (table_view table.now) key }
{
    match value_at(table, key) {
        Some(_) => false,
        None => true,
    }
}

// Whether the table has a key besides the four.
fn other_key(table: &Table) -> bool
    ensures { result ≡ has_other_key (table_view table.now) }
{
    for (name, _value) in table.iter() {
        if !is_key(name.as_str()) {
            return true;
        }
    }
    false
}

fn is_key(name: &str) -> bool
    ensures { result ≡ is_name name.now }
{
    name == Key::TableBits.name()
        || name == Key::Stages.name()
        || name == Key::Writeback.name()
        || name == Key::TransferBytes.name()
}

// The number at a key, where it is in the key's range.
fn number_at(table: &Table, key: Key) -> Option<u64>
    ensures value { result ≡ number_at (table_view table.now) key }
    ensures in_range { IfSome result (λ n. (lowest key ≤ n) × (n ≤ highest key)) }
{
    match value_at(table, key) {
        Some(value) => match value.as_integer() {
            Some(number) => whole_in(key, number),
            None => None,
        },
        None => None,
    }
}

fn whole_in(key: Key, number: i64) -> Option<u64>
    ensures value { result ≡ whole_in key number }
    ensures in_range { IfSome result (λ n. (lowest key ≤ n) × (n ≤ highest key)) }
{
    if key.lowest() <= number && number <= key.highest() {
        Some(number.unsigned_abs())
    } else {
        None
    }
}

// What the table holds at a key.
fn value_at<'a>(table: &'a Table, key: Key) -> Option<&'a Value>
    ensures { option_map (λ v. view v.now) result ≡ get_member (name_of key) (table_view table.now) }
{
    let name = key.name();
    match table.get(name) {
        Some(value) => Some(value),
        None => None,
    }
}
