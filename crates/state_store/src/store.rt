//! Stores.
ghost use Rattle.std.specs.Prelude.{◌≡◌, ◌≢◌, false, is_some, IfOk};
ghost use Rattle.state_store.specs.declared.store.Put.TheVariants.{Stored};
ghost use Rattle.state_store.specs.Store.{object_at, with_object, start_store, look, looked_up, put_answer, put_row};
ghost use Rattle.state_store.specs.Store.{del_row, rows_of};

use crate::listing::Listing;
use crate::object::Objects;
use crate::rows::Rows;
use crate::stored::StoredObject;
use gal_bits::Values;
use gal_io::NoMemory;
use std::alloc::Global;
use std::marker::Model;

/// What a put did.
#[derive(Clone, Copy, PartialEq, Eq)]
pub enum Put {
    /// The row is stored.
    Stored,
    /// The map is at its capacity and the key is new. Nothing has changed.
    Full,
    /// The vector has no such index. Nothing has changed.
    OutOfRange,
}

/// What a look found: the values, zeros where there are none.
#[derive(Clone, Copy)]
pub struct Found {
    pub found: bool,
    pub values: Values,
}

/// The state of a middlebox. Objects are known by their numbers, from 0; a number of no object is an object without
/// rows, and with room for none.
#[derive(Drop)]
pub struct Store {
    objects: Vec<StoredObject>,
}

impl Model for Store {
    ghost use Rattle.state_store.specs.Codes.{store_code};
    ghost use Rattle.state_store.specs.Store.{Store as Objects};

    ghost Value = { Objects };

    ghost coded = { store_code };

    ghost view = { λ store. store.objects.items };
}

impl Store {
    /// The store that a run starts with, with the memory for every size.
    pub fn new(alloc: Global, objects: &Objects) -> Result<Store, NoMemory>
        ensures { IfOk result (λ store. store ≡ start_store objects.now) }
    {
        let declared = objects.as_slice();
        let mut objects = Vec::with_capacity(alloc, declared.len())?;
        for object in declared {
            objects.push(StoredObject::start(alloc, object)?)?;
        }
        Ok(Store { objects })
    }

    /// The values under a key, which are zeros where it has no row.
    pub fn get(&self, object: u32, key: &Values) -> Found
        ensures found { result.found ≡ is_some (look (object_at self.now object) key.now) }
        ensures values { result.values ≡ looked_up (object_at self.now object) key.now }
    {
        let number = object as usize;
        if number < self.objects.len() {
            self.objects[number].get(key)
        } else {
            Found {
                found: false,
                values: Values::new(),
            }
        }
    }

    /// Sets one row. This takes no memory.
    pub fn put(&mut self, object: u32, key: &Values, values: &Values) -> Put
        ensures answer { result ≡ put_answer (object_at self.old object) key.now }
        ensures after { self.new ≡ with_object self.old object
            (put_row (object_at self.old object) key.now values.now) }
        ensures unchanged { result ≢ Stored → self.new ≡ self.old }
    {
        let number = object as usize;
        if number < self.objects.len() {
            let stored = &mut self.objects[number];
            stored.put(key, values)
        } else {
            Put::Full
        }
    }

    /// Removes one row. It answers whether there was one.
    pub fn del(&mut self, object: u32, key: &Values) -> bool
        ensures was { result ≡ is_some (look (object_at self.old object) key.now) }
        ensures after { self.new ≡ with_object self.old object (del_row (object_at self.old object) key.now) }
        ensures unchanged { result ≡ false → self.new ≡ self.old }
    {
        let number = object as usize;
        if number < self.objects.len() {
            let stored = &mut self.objects[number];
            stored.del(key)
        } else {
            false
        }
    }

    /// The rows of an object, in rising order of their keys, as they lie in memory.
    pub fn list(&self, alloc: Global, object: u32) -> Result<Listing, NoMemory>
        ensures { IfOk result (λ made. made ≡ rows_of (object_at self.now object)) }
    {
        let number = object as usize;
        if number < self.objects.len() {
            self.objects[number].list(alloc)
        } else {
            Ok(Listing::plain(Rows::new(alloc)))
        }
    }

    /// The rows of an object, in rising order of their keys.
    pub fn rows(&self, alloc: Global, object: u32) -> Result<Rows, NoMemory>
        ensures { IfOk result (λ rows. rows ≡ rows_of (object_at self.now object)) }
    {
        let number = object as usize;
        if number < self.objects.len() {
            self.objects[number].rows(alloc)
        } else {
            Ok(Rows::new(alloc))
        }
    }

    /// The same store again, with memory of its own for every size.
    pub fn copy(&self, alloc: Global) -> Result<Store, NoMemory>
        ensures { IfOk result (λ made. made ≡ self.now) }
    {
        let mut objects = Vec::with_capacity(alloc, self.objects.len())?;
        for object in &self.objects {
            objects.push(object.copy(alloc)?)?;
        }
        Ok(Store { objects })
    }
}
