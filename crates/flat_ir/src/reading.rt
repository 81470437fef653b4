//! What an instruction reads: the numbers that were computed before it, and tables.
ghost use Rattle.std.specs.Prelude.{◌≡◌, ◌≤◌, length, map, is_some};
ghost use Rattle.state_store.specs.Store.{Store as Objects, object_at, look, looked_up};
ghost use Rattle.flat_ir.specs.Blocks.{Reading};

use crate::program::ValueId;
use gal_bits::Values;
use state_store::{Found, Store};

/// A number for each value of a program.
pub trait Numbers {
    ghost reads: { Self → Reading };

    /// The number of a value, 0 where nothing is known of it.
    fn number(&self, value: ValueId) -> u64
        ensures { result ≡ reads self.now value };
}

/// Tables that keys are looked up in, one for each object.
pub trait Lookup {
    ghost seen: { Self → Objects };

    /// What the object of this number has under a key: the values, or zeros where there are none.
    fn find(&self, object: u32, key: &Values) -> Found
        ensures found { result.found ≡ is_some (look (object_at (seen self.now) object) key.now) }
        ensures values { result.values ≡ looked_up (object_at (seen self.now) object) key.now };
}

impl Lookup for Store {
    ghost seen = { λ store. store };

    fn find(&self, object: u32, key: &Values) -> Found {
        self.get(object, key)
    }
}

/// The numbers of at most 8 values.
pub(crate) fn read_all<R: Numbers>(numbers: &R, values: &[ValueId]) -> Values
    requires { length values.now ≤ 8 }
    ensures { result ≡ map (R.reads numbers.now) values.now }
{
    let mut row = Values::new();
    for value in values {
        row.push(numbers.number(*value));
    }
    row
}
