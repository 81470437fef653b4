//! Rows in the order of their keys.
ghost use Rattle.std.specs.Prelude.{◌≡◌, ◌≤◌, ◌<◌, ◌&&◌, not, nat_le, is_ok, vec_len, vec_capacity, IfOk, IfErr, IsOk};
ghost use Rattle.std.specs.Prelude.{if◌then◌else◌};
ghost use Rattle.std.specs.FinMap as map;
ghost use Rattle.state_store.specs.Fitted.{is_full_at};
ghost use Rattle.state_store.specs.Places.{IsPlaceOf, IsGapFor, IsSorted, map_of, with_entry, without_entry};
ghost use Rattle.state_store.specs.Store.{rows_from};

use crate::rows::Rows;
use gal_bits::Values;
use gal_io::NoMemory;
use std::alloc::Global;

/// The place of the key among the rows, or else the place where it would go.
pub fn place(rows: &[(Values, Values)], key: &Values) -> Result<usize, usize>
    requires { IsSorted rows.now }
    ensures found { IfOk result (IsPlaceOf rows.now key.now) }
    ensures absent { IfErr result (IsGapFor rows.now key.now) }
{
    rows.binary_search_by(|(row_key, _)| row_key.cmp(key))
}

/// Stores a row at its place. With room for one more it takes no memory.
pub fn store_at(
    rows: &mut Vec<(Values, Values)>,
    place: Result<usize, usize>,
    key: &Values,
    values: &Values,
) -> Result<(), NoMemory>
    requires found { IfOk place (IsPlaceOf rows.old.items key.now) }
    requires absent { IfErr place (IsGapFor rows.old.items key.now) }
    ensures after { rows.new.items
        ≡ (if is_ok result then with_entry rows.old.items key.now values.now else rows.old.items) }
    ensures capacity { vec_capacity rows.old ≤ vec_capacity rows.new }
    ensures present { IsOk place → IsOk result }
    ensures room { vec_len rows.old < vec_capacity rows.old → IsOk result }
{
    match place {
        Ok(i) => rows[i].1 = *values,
        Err(i) => rows.insert(i, (*key, *values))?,
    }
    Ok(())
}

/// The values under a key.
pub fn get_sorted(rows: &[(Values, Values)], key: &Values) -> Option<Values>
    requires { IsSorted rows.now }
    ensures { result ≡ map.get (map_of rows.now) key.now }
{
    match place(rows, key) {
        Ok(i) => Some(rows[i].1),
        Err(_) => None,
    }
}

/// Sets one row, where there are no more than so many then, and answers whether that is so. This takes no memory.
pub fn put_sorted(
    rows: &mut Vec<(Values, Values)>,
    size: usize,
    key: &Values,
    values: &Values,
) -> bool
    requires sorted { IsSorted rows.old.items }
    requires room { size ≤ vec_capacity rows.old }
    ensures stored { result ≡ not (is_full_at size (map_of rows.old.items) key.now) }
    ensures after { rows.new.items
        ≡ (if is_full_at size (map_of rows.old.items) key.now then rows.old.items
        else with_entry rows.old.items key.now values.now) }
    ensures capacity { vec_capacity rows.old ≤ vec_capacity rows.new }
{
    let found = place(rows, key);
    if has_no_room(found, size, rows.len()) {
        return false;
    }
    let _ = store_at(rows, found, key, values);
    true
}

/// Removes one row. It answers whether there was one.
pub fn del_sorted(rows: &mut Vec<(Values, Values)>, key: &Values) -> bool
    requires { IsSorted rows.old.items }
    ensures was { result ≡ map.contains_key (map_of rows.old.items) key.now }
    ensures after { rows.new.items ≡ without_entry rows.old.items key.now }
    ensures capacity { vec_capacity rows.old ≤ vec_capacity rows.new }
{
    match place(rows, key) {
        Ok(i) => {
            rows.remove(i);
            true
        }
        Err(_) => false,
    }
}

// Whether a key without a place is one too many beside so many rows.
fn has_no_room(place: Result<usize, usize>, size: usize, rows: usize) -> bool
    ensures { result ≡ (not (is_ok place) && nat_le size rows) }
{
    place.is_err() && size <= rows
}

/// The rows one by one.
pub fn list_rows(alloc: Global, entries: &[(Values, Values)]) -> Result<Rows, NoMemory>
    ensures { IfOk result (λ rows. rows ≡ rows_from entries.now) }
{
    let mut rows = match entries {
        [] => Rows::new(alloc),
        [(keys, values), ..] => {
            Rows::with_capacity(alloc, keys.len(), values.len(), entries.len())?
        }
    };
    for (keys, values) in entries {
        rows.push_values(keys, values)?;
    }
    Ok(rows)
}
