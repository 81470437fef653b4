//! Changes that the server made, and the commands that carry them to the switch.
ghost use Rattle.std.specs.Prelude.{◌≡◌};
ghost use Rattle.writeback_table.specs.Views.{disturbs};

use gal_bits::Values;
use gal_io::Items;

/// What a change leaves under its key.
#[derive(Clone, Copy)]
pub enum To {
    /// The values that the key has from now on.
    Value(Values),
    /// The key has no row from now on.
    Gone,
}

/// A change of one row of an object.
#[derive(Clone, Copy)]
pub struct Update {
    /// The number of the object, which is its place among the declared ones, from 0.
    pub object: u32,
    pub key: Values,
    pub to: To,
}

/// A list of changes, in the order in which they were made.
pub type Updates = Items<Update>;

/// What the switch is told, one at a time.
#[derive(Clone, Copy)]
pub enum Command {
    /// Puts a change into the write-back table of its object.
    Stage(Update),
    /// Sets the bit: from here on lookups see the write-back tables over the main tables.
    On,
    /// Makes a change in the main table of its object.
    Main(Update),
    /// Clears the bit: from here on lookups see the main tables alone.
    Off,
    /// Removes a key from the write-back table of the object of this number.
    Clear(u32, Values),
}

impl Command {
    /// Whether it changes what a pass under way sees that entered with this bit: the main tables, or what is staged over
    /// them.
    pub fn disturbs(&self, bit: bool) -> bool
        ensures { result ≡ disturbs bit self.now }
    {
        match self {
            Command::Stage(_) => bit,
            Command::Main(_) => !bit,
            Command::On | Command::Off | Command::Clear(..) => false,
        }
    }
}

/// What a command did.
#[derive(Clone, Copy, PartialEq, Eq)]
pub enum Applied {
    Done,
    /// The table that the command touches is at its capacity and the key is new, or a vector has no such index. Nothing
    /// has changed.
    NoRoom,
}
