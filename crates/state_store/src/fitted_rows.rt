//! Rows of declared widths, by place or in a slot table.
ghost use Rattle.std.specs.Prelude.{◌≡◌, ◌≤◌, [], None, vec_capacity, IfOk, IfSome, IsOk, IsSome};
ghost use Rattle.std.specs.FinMap as map;
ghost use Rattle.state_store.specs.Fitted.{keep_answer, kept_row};
ghost use Rattle.state_store.specs.Store.{rows_from};

use crate::listing::Listing;
use crate::packed_rows::{Kept, PackedRows};
use crate::placed_rows::PlacedRows;
use crate::rows::Rows;
use gal_bits::Values;
use gal_io::NoMemory;
use std::alloc::Global;
use std::marker::Model;

/// Rows whose keys and values have declared widths. Those of a vector lie by place, others in a slot table.
#[derive(Drop)]
pub struct FittedRows {
    rows: Form,
}

/// How rows lie in memory.
#[derive(Drop)]
enum Form {
    Placed(PlacedRows),
    Packed(PackedRows),
}

impl Model for FittedRows {
    ghost use Rattle.state_store.specs.Fitted.{Fitted, fitted_code};
    ghost use Rattle.state_store.specs.Forms.{rows_in_form};

    ghost Value = { Fitted };

    ghost coded = { fitted_code };

    ghost view = { λ a. rows_in_form a.rows };
}

impl FittedRows {
    pub fn placed(rows: PlacedRows) -> FittedRows
        ensures { result ≡ rows }
    {
        FittedRows {
            rows: Form::Placed(rows),
        }
    }

    pub fn packed(rows: PackedRows) -> FittedRows
        ensures { result ≡ rows }
    {
        FittedRows {
            rows: Form::Packed(rows),
        }
    }

    /// The values under a key.
    pub fn get(&self, key: &Values) -> Option<Values>
        ensures { result ≡ map.get self.now.contents key.now }
    {
        match &self.rows {
            Form::Placed(rows) => rows.get(key),
            Form::Packed(rows) => rows.get(key),
        }
    }

    /// Sets one row.
    pub fn put(&mut self, key: &Values, values: &Values) -> Kept
        ensures answer { result ≡ keep_answer self.old key.now values.now }
        ensures after { self.new ≡ kept_row self.old key.now values.now }
    {
        match &mut self.rows {
            Form::Placed(rows) => rows.put(key, values),
            Form::Packed(rows) => rows.put(key, values),
        }
    }

    /// Removes one row, where rows may go. It answers whether there was one.
    pub fn del(&mut self, key: &Values) -> Option<bool>
        ensures was { IfSome result (λ was. was ≡ map.contains_key self.old.contents key.now) }
        ensures after { IsSome result → self.new ≡ record self.old { contents = map.remove self.old.contents key.now } }
        ensures stays { result ≡ None → self.new ≡ self.old }
    {
        match &mut self.rows {
            Form::Placed(_) => None,
            Form::Packed(rows) => Some(rows.del(key)),
        }
    }

    /// How many rows there are.
    pub fn len(&self) -> usize
        ensures count { result ≡ map.len self.now.contents }
        ensures within { map.len self.now.contents ≤ self.now.capacity }
    {
        match &self.rows {
            Form::Placed(rows) => rows.len(),
            Form::Packed(rows) => rows.len(),
        }
    }

    /// The rows in rising order of their keys, as they lie in memory.
    pub fn list(&self, alloc: Global) -> Result<Listing, NoMemory>
        ensures { IfOk result (λ made. made ≡ rows_from (map.entries self.now.contents)) }
    {
        match &self.rows {
            Form::Placed(rows) => Ok(Listing::plain(rows.rows(alloc)?)),
            Form::Packed(rows) => Ok(Listing::packed(rows.list(alloc)?)),
        }
    }

    /// The rows in rising order of their keys.
    pub fn rows(&self, alloc: Global) -> Result<Rows, NoMemory>
        ensures { IfOk result (λ made. made ≡ rows_from (map.entries self.now.contents)) }
    {
        match &self.rows {
            Form::Placed(rows) => rows.rows(alloc),
            Form::Packed(rows) => rows.list(alloc)?.to_rows(alloc),
        }
    }

    /// Lists the rows in rising order of their keys.
    pub fn pour(&self, rows: &mut Vec<(Values, Values)>) -> Result<(), NoMemory>
        requires { rows.old.items ≡ [] }
        ensures rows { IfOk result (λ _. rows.new.items ≡ map.entries self.now.contents) }
        ensures capacity { vec_capacity rows.old ≤ vec_capacity rows.new }
        ensures room { map.len self.now.contents ≤ vec_capacity rows.old → IsOk result }
    {
        match &self.rows {
            Form::Placed(own) => own.pour(rows),
            Form::Packed(own) => own.pour(rows),
        }
    }

    /// The same rows again, with memory of their own for as many.
    pub fn copy(&self, alloc: Global, capacity: usize) -> Result<FittedRows, NoMemory>
        requires { capacity ≡ self.now.capacity }
        ensures { IfOk result (λ made. made ≡ self.now) }
    {
        match &self.rows {
            Form::Placed(rows) => Ok(FittedRows::placed(rows.copy(alloc)?)),
            Form::Packed(rows) => Ok(FittedRows::packed(rows.copy(alloc, capacity)?)),
        }
    }
}
