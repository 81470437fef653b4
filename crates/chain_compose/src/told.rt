//! What is counted at the ends of wires, level by level.
ghost use Rattle.std.specs.Prelude.{◌≡◌, ◌++◌, ◌∷◌, [], OnOk};
ghost use Rattle.chain_compose.specs.Tallies.{told};

use gal_io::NoMemory;
use std::alloc::Global;
use std::marker::Model;

/// A number for each element, at each level. Contracts see a list for each level.
#[derive(Drop)]
pub(crate) struct Levels {
    rows: Vec<Vec<u64>>,
}

impl Model for Levels {
    ghost use Rattle.std.specs.Prelude.{ℕ, List, map};

    ghost Value = { List (List ℕ) };

    ghost view = { λ levels. map (λ row. row.items) levels.rows.items };
}

impl Levels {
    /// No level.
    pub fn new(alloc: Global) -> Levels
        ensures { result ≡ [] }
    {
        Levels {
            rows: Vec::new(alloc),
        }
    }

    /// Puts one level more.
    pub fn push(&mut self, row: Vec<u64>) -> Result<(), NoMemory>
        ensures { OnOk result (self.new ≡ self.old ++ row.items ∷ []) }
    {
        self.rows.push(row)?;
        Ok(())
    }

    /// The number of an element at a level, 0 where there is none.
    pub fn at(&self, level: usize, element: usize) -> u64
        ensures { result ≡ told self.now level element }
    {
        match self.rows.get(level) {
            Some(row) => match row.get(element) {
                Some(number) => *number,
                None => 0,
            },
            None => 0,
        }
    }
}
