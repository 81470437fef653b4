//! The rows of a vector, by place.
ghost use Rattle.std.specs.Prelude.{◌≡◌, ◌≤◌, ◌<◌, ℕ, [], ◌∷◌, None, length, slice_index_or, vec_capacity, IfOk, IfSome};
ghost use Rattle.std.specs.Prelude.{IsOk, ◌++◌, vec_len};
ghost use Rattle.std.specs.FinMap as map;
ghost use Rattle.state_store.specs.Fitted.{fits_row, keep_answer, kept_row};
ghost use Rattle.state_store.specs.Store.{row_of, rows_from, zeros_from};

use crate::even_lists::EvenLists;
use crate::object::Row;
use crate::packed_rows::Kept;
use crate::packing::have_widths;
use crate::rows::Rows;
use crate::short_lists::{single, values_of};
use gal_bits::{Values, Widths};
use gal_io::NoMemory;
use std::alloc::Global;
use std::marker::Model;

/// A row for each number below a length, which is its key. The values of a row lie at its place, so no key is stored and
/// none is looked for. All rows are there from the start, and no row goes.
#[derive(Drop)]
pub struct PlacedRows {
    keys: Widths,
    values: Widths,
    rows: EvenLists,
}

impl Model for PlacedRows {
    ghost use Rattle.std.specs.Prelude.{◌≡◌, ◌≤◌, length};
    ghost use Rattle.state_store.specs.Fitted.{Fitted, fitted_code};
    ghost use Rattle.state_store.specs.Placed.{placed_rows};

    ghost Value = { Fitted };

    ghost coded = { fitted_code };

    ghost view = { λ a. placed_rows a.keys a.values a.rows.lists };

    ghost invariant = { λ a. (a.rows.width ≡ length a.values) × (a.rows.width ≤ 8) };
}

impl PlacedRows {
    /// A row of zeros for each number below a length.
    pub fn new(
        alloc: Global,
        keys: &Widths,
        values: &Widths,
        size: u32,
    ) -> Result<PlacedRows, NoMemory>
        ensures { IfOk result (λ made.
            made ≡ record {
              keys = keys.now;
              values = values.now;
              capacity = size;
              contents = zeros_from size 0 (length values.now) map.empty;
            }) }
    {
        let rows = EvenLists::zeros(alloc, values.len(), size)?;
        Ok(PlacedRows {
            keys: *keys,
            values: *values,
            rows,
        })
    }

    /// The values under a key.
    pub fn get(&self, key: &Values) -> Option<Values>
        ensures { result ≡ map.get self.now.contents key.now }
    {
        match place_of(key, self.rows.len()) {
            Some(place) => Some(self.row(place).values),
            None => None,
        }
    }

    /// Sets one row.
    pub fn put(&mut self, key: &Values, values: &Values) -> Kept
        ensures answer { result ≡ keep_answer self.old key.now values.now }
        ensures after { self.new ≡ kept_row self.old key.now values.now }
    {
        if !self.fits(key, values) {
            return Kept::Misfit;
        }
        match place_of(key, self.rows.len()) {
            Some(place) => {
                self.rows.set(place, values.as_slice());
                Kept::Stored
            }
            None => Kept::Full,
        }
    }

    /// How many rows there are.
    pub fn len(&self) -> usize
        ensures count { result ≡ map.len self.now.contents }
        ensures within { map.len self.now.contents ≤ self.now.capacity }
    {
        self.rows.len()
    }

    /// The rows one by one.
    pub fn rows(&self, alloc: Global) -> Result<Rows, NoMemory>
        ensures { IfOk result (λ made. made ≡ rows_from (map.entries self.now.contents)) }
    {
        let count = self.len();
        let mut rows = Rows::with_capacity(alloc, 1, self.values.len(), count)?;
        for place in 0..count {
            rows.push_parts(&[place as u64], self.rows.at(place))?;
        }
        Ok(rows)
    }

    /// Lists the rows in rising order of their keys.
    pub fn pour(&self, rows: &mut Vec<(Values, Values)>) -> Result<(), NoMemory>
        requires { rows.old.items ≡ [] }
        ensures rows { IfOk result (λ _. rows.new.items ≡ map.entries self.now.contents) }
        ensures capacity { vec_capacity rows.old ≤ vec_capacity rows.new }
        ensures room { map.len self.now.contents ≤ vec_capacity rows.old → IsOk result }
    {
        for place in 0..self.len() {
            let row = self.row(place);
            push_entry(rows, &row)?;
        }
        Ok(())
    }

    /// The same rows again, in memory of their own.
    pub fn copy(&self, alloc: Global) -> Result<PlacedRows, NoMemory>
        ensures { IfOk result (λ made. made ≡ self.now) }
    {
        Ok(PlacedRows {
            keys: self.keys,
            values: self.values,
            rows: self.rows.copy(alloc)?,
        })
    }

    // Whether a row has the declared widths.
    fn fits(&self, key: &Values, values: &Values) -> bool
        ensures { result ≡ fits_row self.now key.now values.now }
    {
        have_widths(self.keys.as_slice(), key.as_slice())
            && have_widths(self.values.as_slice(), values.as_slice())
    }

    // The row at a place.
    fn row(&self, place: usize) -> Row
        requires { place < self.now.capacity }
        ensures { result ≡ row_of (slice_index_or (map.entries self.now.contents) place ([], [])) }
    {
        Row {
            keys: single(place as u64),
            values: values_of(self.rows.at(place)),
        }
    }
}

// Puts a row behind others.
fn push_entry(rows: &mut Vec<(Values, Values)>, row: &Row) -> Result<(), NoMemory>
    ensures rows { IfOk result (λ _. rows.new.items ≡ rows.old.items ++ (row.now.keys, row.now.values) ∷ []) }
    ensures capacity { vec_capacity rows.old ≤ vec_capacity rows.new }
    ensures room { vec_len rows.old < vec_capacity rows.old → IsOk result }
{
    rows.push((row.keys, row.values))?;
    Ok(())
}

// The place of a key among so many: the number that it is.
#[tactic(auto, using(crate::proofs::PlacedLaws::only_number))]
fn place_of(key: &Values, count: usize) -> Option<usize>
    ensures place { IfSome result (λ place. key.now ≡ place ∷ []) }
    ensures within { IfSome result (λ place. place < count) }
    ensures none { result ≡ None → (place : ℕ) → key.now ≡ place ∷ [] → count ≤ place }
{
    if key.len() != 1 {
        return None;
    }
    let place = key.at(0);
    if place < count as u64 {
        Some(place as usize)
    } else {
        None
    }
}
