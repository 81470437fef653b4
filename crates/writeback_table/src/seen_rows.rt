//! Rows that are put together from several tables.
ghost use Rattle.std.specs.Prelude.{◌≡◌, OnOk, IfOk};
ghost use Rattle.std.specs.FinMap as map;
ghost use Rattle.state_store.specs.Store.{rows_from, with_rows};
ghost use Rattle.writeback_table.specs.Seen.{without_rows};

use crate::one_object::{OneObject, map_of_widths};
use gal_bits::{Values, Widths};
use gal_io::NoMemory;
use state_store::{Put, Row, Rows};
use std::alloc::Global;
use std::marker::Model;

/// Rows by their keys, in a map with room for so many.
#[derive(Drop)]
pub struct SeenRows {
    rows: OneObject,
}

impl Model for SeenRows {
    ghost use Rattle.state_store.specs.Codes.{contents_code};
    ghost use Rattle.state_store.specs.Store.{Contents};

    ghost Value = { Contents };

    ghost coded = { contents_code };

    ghost view = { λ seen. seen.rows.contents };
}

impl SeenRows {
    /// No rows, with the memory for so many whose keys and values have these widths.
    pub fn new(
        alloc: Global,
        keys: &Widths,
        values: &Widths,
        size: u32,
    ) -> Result<SeenRows, NoMemory>
        ensures { IfOk result (λ made. made ≡ map.empty) }
    {
        let declared = map_of_widths(alloc, keys, values, size);
        Ok(SeenRows {
            rows: OneObject::new(alloc, &declared)?,
        })
    }

    /// Puts each of these rows in, in the place of one with its key. Where there are more than the map has room for,
    /// memory is lacking.
    pub fn put_all(&mut self, rows: &Rows) -> Result<(), NoMemory>
        ensures { OnOk result (self.new ≡ with_rows rows.now self.old) }
    {
        for place in 0..rows.len() {
            self.put(&rows.at(place))?;
        }
        Ok(())
    }

    /// Removes the keys of these rows.
    pub fn remove_all(&mut self, rows: &Rows)
        ensures { self.new ≡ without_rows rows.now self.old }
    {
        for place in 0..rows.len() {
            self.remove(&rows.at(place).keys);
        }
    }

    #[tactic(auto, using(crate::proofs::Overlays::stored_put))]
    fn put(&mut self, row: &Row) -> Result<(), NoMemory>
        ensures { OnOk result (self.new ≡ map.insert self.old row.now.keys row.now.values) }
    {
        match self.rows.put(&row.keys, &row.values) {
            Put::Stored => Ok(()),
            Put::Full | Put::OutOfRange => Err(NoMemory),
        }
    }

    fn remove(&mut self, key: &Values)
        ensures { self.new ≡ map.remove self.old key.now }
    {
        self.rows.del(key);
    }

    /// The rows in rising order of their keys.
    pub fn list(&self, alloc: Global) -> Result<Rows, NoMemory>
        ensures { IfOk result (λ rows. rows ≡ rows_from (map.entries self.now)) }
    {
        self.rows.rows(alloc)
    }
}
