//! A store of one object.
ghost use Rattle.std.specs.Prelude.{◌≡◌, ◌∷◌, [], is_some, length, IfOk};
ghost use Rattle.std.specs.FinMap as map;
ghost use Rattle.state_store.specs.Store.{look, looked_up, put_answer, put_row, del_row, start_object, rows_of};

use gal_bits::{Values, Widths};
use gal_io::{Bytes, CopyIn, NoMemory};
use state_store::{Found, Kind, ObjectDecl, Objects, Put, Rows, Store};
use std::alloc::Global;
use std::marker::Model;

// The number of the only object.
const ONLY: u32 = 0;

/// A map with room for so many rows, whose keys and values have these widths.
pub fn map_of_widths(alloc: Global, keys: &Widths, values: &Widths, size: u32) -> ObjectDecl
    ensures { start_object result
        ≡ record { kind = Kind.Map; size = size; count = length values.now; contents = map.empty } }
{
    ObjectDecl {
        name: Bytes::new(alloc),
        kind: Kind::Map,
        keys: *keys,
        values: *values,
        size,
        start: 0,
        rows: Rows::new(alloc),
    }
}

/// One object with the memory for its size.
#[derive(Drop)]
pub struct OneObject {
    store: Store,
}

impl Model for OneObject {
    ghost use Rattle.std.specs.Prelude.{◌<◌, length};
    ghost use Rattle.state_store.specs.Codes.{object_code};
    ghost use Rattle.state_store.specs.Store.{Object, object_at};

    ghost Value = { Object };

    ghost coded = { object_code };

    ghost view = { λ o. object_at o.store 0 };

    ghost invariant = { λ o. 0 < length o.store };
}

impl OneObject {
    /// The object as a run starts with it.
    pub fn new(alloc: Global, object: &ObjectDecl) -> Result<OneObject, NoMemory>
        ensures { IfOk result (λ made. made ≡ start_object object.now) }
    {
        let mut objects = Objects::new(alloc);
        objects.push(object.copy(alloc)?)?;
        let store = Store::new(alloc, &objects)?;
        Ok(OneObject { store })
    }

    /// The values under a key, or zeros.
    pub fn get(&self, key: &Values) -> Found
        ensures found { result.found ≡ is_some (look self.now key.now) }
        ensures values { result.values ≡ looked_up self.now key.now }
    {
        self.store.get(ONLY, key)
    }

    /// The values under a key, if it has a row.
    pub fn find(&self, key: &Values) -> Option<Values>
        ensures { result ≡ look self.now key.now }
    {
        let found = self.get(key);
        if found.found {
            Some(found.values)
        } else {
            None
        }
    }

    /// Sets one row. This takes no memory.
    pub fn put(&mut self, key: &Values, values: &Values) -> Put
        ensures answer { result ≡ put_answer self.old key.now }
        ensures after { self.new ≡ put_row self.old key.now values.now }
    {
        self.store.put(ONLY, key, values)
    }

    /// Removes one row. It answers whether there was one.
    pub fn del(&mut self, key: &Values) -> bool
        ensures was { result ≡ is_some (look self.old key.now) }
        ensures after { self.new ≡ del_row self.old key.now }
    {
        self.store.del(ONLY, key)
    }

    /// The rows, in rising order of their keys.
    pub fn rows(&self, alloc: Global) -> Result<Rows, NoMemory>
        ensures { IfOk result (λ rows. rows ≡ rows_of self.now) }
    {
        self.store.rows(alloc, ONLY)
    }
}
