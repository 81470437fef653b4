//! Rows in the order of their keys.
ghost use Rattle.std.specs.Prelude.{◌≡◌, ◌==◌, length, slice_get};

use crate::object::Row;
use crate::packed_list::PackedList;
use crate::rows::Rows;
use std::marker::Model;

/// The rows of an object as they were when it was listed, in rising order of their keys. A row of a map or of a table
/// takes 32 bytes, where its keys and its values have at most 128 bits each.
#[derive(Drop)]
pub struct Listing {
    rows: Listed,
}

/// Rows that are packed, or plain ones.
#[derive(Drop)]
enum Listed {
    Packed(PackedList),
    Plain(Rows),
}

impl Model for Listing {
    ghost use Rattle.std.specs.Prelude.{List};
    ghost use Rattle.state_store.specs.declared.object.Row.{Row};
    ghost use Rattle.state_store.specs.Listed.{rows_of_listed};

    ghost Value = { List Row };

    ghost view = { λ a. rows_of_listed a.rows };
}

impl Listing {
    pub(crate) fn packed(rows: PackedList) -> Listing
        ensures { result ≡ rows }
    {
        Listing {
            rows: Listed::Packed(rows),
        }
    }

    pub(crate) fn plain(rows: Rows) -> Listing
        ensures { result ≡ rows }
    {
        Listing {
            rows: Listed::Plain(rows),
        }
    }

    /// How many rows there are.
    pub fn len(&self) -> usize
        ensures { result ≡ length self.now }
    {
        match &self.rows {
            Listed::Packed(rows) => rows.len(),
            Listed::Plain(rows) => rows.len(),
        }
    }

    pub fn is_empty(&self) -> bool
        ensures { result ≡ (length self.now == 0) }
    {
        self.len() == 0
    }

    /// The row at a place, if there are so many.
    pub fn get(&self, place: usize) -> Option<Row>
        ensures { result ≡ slice_get self.now place }
    {
        match &self.rows {
            Listed::Packed(rows) => rows.get(place),
            Listed::Plain(rows) => {
                if place < rows.len() {
                    Some(rows.at(place))
                } else {
                    None
                }
            }
        }
    }
}
