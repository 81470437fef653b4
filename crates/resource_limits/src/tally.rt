//! One number per object.
ghost use Rattle.std.specs.Prelude.{◌≡◌, ◌<◌, ◌^◌, ◌++◌, ◌∷◌, [], length, IfOk};
ghost use Rattle.resource_limits.specs.Counts.{greatest};

use gal_io::NoMemory;
use std::alloc::Global;
use std::marker::Model;

/// A number for each object, in order of declaration.
#[derive(Drop)]
pub struct Tally {
    items: Vec<u32>,
}

impl Model for Tally {
    ghost use Rattle.std.specs.Prelude.{ℕ, ◌<◌, ◌^◌, List, length};

    ghost Value = { List ℕ };

    ghost view = { λ tally. tally.items.items };

    ghost invariant = { λ tally. length tally.items.items < 2 ^ 32 };
}

impl Tally {
    /// The list of these numbers.
    pub fn of(items: Vec<u32>) -> Tally
        requires { length items.items < 2 ^ 32 }
        ensures { result ≡ items.items }
    {
        Tally { items }
    }

    pub fn as_slice(&self) -> &[u32]
        ensures value { result.now ≡ self.now }
        ensures bounded { length self.now < 2 ^ 32 }
    {
        self.items.as_slice()
    }

    /// How many objects there are.
    pub fn len(&self) -> usize
        ensures { result ≡ length self.now }
    {
        self.items.len()
    }

    /// The greatest of the numbers, and 0 where there are none.
    pub fn greatest(&self) -> u32
        ensures { result ≡ greatest self.now }
    {
        let mut found = 0;
        for number in &self.items {
            found = found.max(*number);
        }
        found
    }

    /// The same numbers again, in memory of their own.
    pub fn copy(&self, alloc: Global) -> Result<Tally, NoMemory>
        ensures { IfOk result (λ made. made ≡ self.now) }
    {
        let items = self.items.to_vec(alloc)?;
        Ok(Tally { items })
    }
}
