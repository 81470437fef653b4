//! One object at work.
ghost use Rattle.std.specs.Prelude.{◌≡◌, [], slice_index, is_some, false, length, IfOk};
ghost use Rattle.std.specs.FinMap as map;
ghost use Rattle.state_store.specs.Store.{Object, start_object, look, looked_up, put_answer, put_row, del_row, rows_of};
ghost use Rattle.state_store.specs.Store.{with_rows, zeros_from, is_out};

use crate::kept_rows::KeptRows;
use crate::listing::Listing;
use crate::object::{Kind, ObjectDecl};
use crate::rows::Rows;
use crate::short_lists::{single, zeros};
use crate::store::{Found, Put};
use gal_bits::Values;
use gal_io::NoMemory;
use std::alloc::Global;
use std::marker::Model;

/// An object at work, with memory that is enough for its size.
#[derive(Drop)]
pub struct StoredObject {
    kind: Kind,
    size: u32,
    count: usize,
    rows: KeptRows,
}

impl Model for StoredObject {
    ghost use Rattle.std.specs.Prelude.{◌≡◌, ◌≤◌};
    ghost use Rattle.state_store.specs.Codes.{object_code};
    ghost use Rattle.state_store.specs.Store.{Object};

    ghost Value = { Object };

    ghost coded = { object_code };

    ghost view = { λ object. record {
      kind = object.kind;
      size = object.size;
      count = object.count;
      contents = object.rows.contents;
    } };

    ghost invariant = { λ object. (object.rows.size ≡ object.size) × (object.count ≤ 8) };
}

impl StoredObject {
    /// An object without rows, with the memory for its size.
    pub fn new(alloc: Global, object: &ObjectDecl) -> Result<StoredObject, NoMemory>
        ensures { IfOk result (λ made.
            made ≡ record {
              kind = object.now.kind;
              size = object.now.size;
              count = length object.now.values;
              contents = map.empty;
            }) }
    {
        let slots = in_slots(object.kind);
        let rows = KeptRows::new(
            alloc,
            &object.keys,
            &object.values,
            object.size as usize,
            slots,
        )?;
        Ok(StoredObject {
            kind: object.kind,
            size: object.size,
            count: object.values.len(),
            rows,
        })
    }

    // A vector, with zeros at each index.
    fn zeros(alloc: Global, object: &ObjectDecl) -> Result<StoredObject, NoMemory>
        ensures { IfOk result (λ made.
            made ≡ record {
              kind = object.now.kind;
              size = object.now.size;
              count = length object.now.values;
              contents = zeros_from object.now.size 0 (length object.now.values) map.empty;
            }) }
    {
        let rows = KeptRows::zeros(alloc, &object.keys, &object.values, object.size)?;
        Ok(StoredObject {
            kind: object.kind,
            size: object.size,
            count: object.values.len(),
            rows,
        })
    }

    /// The object as a run starts with it.
    pub fn start(alloc: Global, object: &ObjectDecl) -> Result<StoredObject, NoMemory>
        ensures { IfOk result (λ made. made ≡ start_object object.now) }
    {
        match object.kind {
            Kind::Vector => StoredObject::zeros(alloc, object),
            Kind::Map => StoredObject::new(alloc, object),
            Kind::Table => {
                let mut made = StoredObject::new(alloc, object)?;
                made.set_rows(&object.rows)?;
                Ok(made)
            }
            Kind::Int => {
                let mut made = StoredObject::new(alloc, object)?;
                made.set(&Values::new(), &single(object.start))?;
                Ok(made)
            }
        }
    }

    /// The values under a key, or zeros.
    pub fn get(&self, key: &Values) -> Found
        ensures found { result.found ≡ is_some (look self.now key.now) }
        ensures values { result.values ≡ looked_up self.now key.now }
    {
        match self.rows.get(key) {
            Some(values) => Found {
                found: true,
                values,
            },
            None => Found {
                found: false,
                values: zeros(self.count),
            },
        }
    }

    /// Sets one row. This takes no memory.
    pub fn put(&mut self, key: &Values, values: &Values) -> Put
        ensures answer { result ≡ put_answer self.old key.now }
        ensures after { self.new ≡ put_row self.old key.now values.now }
    {
        if is_outside(self.kind, self.size, key) {
            return Put::OutOfRange;
        }
        if self.rows.put(key, values) {
            Put::Stored
        } else {
            Put::Full
        }
    }

    /// Removes one row. It answers whether there was one.
    pub fn del(&mut self, key: &Values) -> bool
        ensures was { result ≡ is_some (look self.old key.now) }
        ensures after { self.new ≡ del_row self.old key.now }
        ensures unchanged { result ≡ false → self.new ≡ self.old }
    {
        self.rows.del(key)
    }

    /// The rows, in rising order of their keys, as they lie in memory.
    pub fn list(&self, alloc: Global) -> Result<Listing, NoMemory>
        ensures { IfOk result (λ made. made ≡ rows_of self.now) }
    {
        self.rows.list(alloc)
    }

    /// The rows, in rising order of their keys.
    pub fn rows(&self, alloc: Global) -> Result<Rows, NoMemory>
        ensures { IfOk result (λ rows. rows ≡ rows_of self.now) }
    {
        self.rows.rows(alloc)
    }

    /// The same object again, with memory of its own for its size.
    pub fn copy(&self, alloc: Global) -> Result<StoredObject, NoMemory>
        ensures { IfOk result (λ made. made ≡ self.now) }
    {
        Ok(StoredObject {
            kind: self.kind,
            size: self.size,
            count: self.count,
            rows: self.rows.copy(alloc)?,
        })
    }

    // Stores each row, also beyond the object's size.
    fn set_rows(&mut self, rows: &Rows) -> Result<(), NoMemory>
        ensures { IfOk result (λ _. self.new ≡ record self.old { contents = with_rows rows.now self.old.contents }) }
    {
        for place in 0..rows.len() {
            let row = rows.at(place);
            self.set(&row.keys, &row.values)?;
        }
        Ok(())
    }

    // Stores a row, also beyond the object's size.
    fn set(&mut self, key: &Values, values: &Values) -> Result<(), NoMemory>
        ensures { IfOk result (λ _.
            self.new ≡ record self.old { contents = map.insert self.old.contents key.now values.now }) }
    {
        self.rows.set(key, values)
    }
}

// Whether a vector has no such index.
fn is_outside(kind: Kind, size: u32, key: &Values) -> bool
    ensures { result ≡ is_out kind size key.now }
{
    match kind {
        Kind::Vector => u64::from(size) <= first(key),
        Kind::Table | Kind::Map | Kind::Int => false,
    }
}

// Whether rows of such an object may lie in a slot table.
fn in_slots(kind: Kind) -> bool {
    match kind {
        Kind::Table | Kind::Map => true,
        Kind::Vector | Kind::Int => false,
    }
}

// The first number, 0 where there is none.
fn first(key: &Values) -> u64
    ensures { result ≡ slice_index key.now 0 }
{
    if key.is_empty() { 0 } else { key.at(0) }
}
