//! The two tables of one object.
ghost use Rattle.std.specs.Prelude.{◌≡◌, ◌≤◌, length, is_some, replicate, IfOk, true, if◌then◌else◌};
ghost use Rattle.std.specs.FinMap as map;
ghost use Rattle.state_store.specs.Store.{start_object};
ghost use Rattle.writeback_table.specs.Pair as spec;

use crate::command::{Applied, Command, To, Update};
use crate::one_object::OneObject;
use crate::seen_rows::SeenRows;
use crate::write_back::WriteBack;
use gal_bits::{Values, Widths};
use gal_io::NoMemory;
use state_store::{Found, ObjectDecl, Put, Rows};
use std::alloc::Global;
use std::marker::Model;

/// The main table of an object and its write-back table. The bit that says whether lookups see the second is not kept
/// here, since all objects share it.
#[derive(Drop)]
pub struct Pair {
    main: OneObject,
    staged: WriteBack,
    keys: Widths,
    values: Widths,
    zeros: Values,
}

impl Model for Pair {
    ghost use Rattle.std.specs.Prelude.{◌≡◌, replicate};
    ghost use Rattle.writeback_table.specs.Codes.{pair_code};
    ghost use Rattle.writeback_table.specs.Pair as spec;

    ghost Value = { spec.Pair };

    ghost coded = { pair_code };

    ghost view = { λ p. record { main = p.main; staged = p.staged.rows; room = p.staged.room } };

    ghost invariant = { λ p. p.zeros ≡ replicate p.main.count 0 };
}

impl Pair {
    /// The tables of an object before any command, with the memory for its size and for `writeback` staged rows. A key
    /// that is to be gone counts as a row there.
    pub fn new(alloc: Global, object: &ObjectDecl, writeback: u32) -> Result<Pair, NoMemory>
        ensures { IfOk result (λ pair. pair
            ≡ record { main = start_object object.now; staged = map.empty; room = writeback }) }
    {
        let main = OneObject::new(alloc, object)?;
        let staged = WriteBack::new(alloc, object, writeback)?;
        Ok(Pair {
            main,
            staged,
            keys: object.keys,
            values: object.values,
            zeros: zeros(object.values.len()),
        })
    }

    /// Applies a command that names the object of this pair, or none. On and Off change nothing here. This takes no
    /// memory.
    #[tactic(auto, using(crate::proofs::Rooms::refused))]
    pub fn apply(&mut self, command: &Command) -> Applied
        ensures answer { result ≡ (if spec.has_room self.old command.now then Applied.Done else Applied.NoRoom) }
        ensures after { self.new ≡ spec.applied self.old command.now }
        ensures no_room { result ≡ Applied.NoRoom → self.new ≡ self.old }
    {
        match command {
            Command::Stage(update) => self.staged.stage(update),
            Command::Main(update) => self.change(update),
            Command::Clear(_, key) => {
                self.staged.clear(key);
                Applied::Done
            }
            Command::On | Command::Off => Applied::Done,
        }
    }

    fn change(&mut self, update: &Update) -> Applied
        ensures answer { result ≡ (if spec.takes self.old.main update.now then Applied.Done else Applied.NoRoom) }
        ensures after { self.new ≡ spec.applied self.old (Command.Main update.now) }
    {
        match update.to {
            To::Value(values) => match self.main.put(&update.key, &values) {
                Put::Stored => Applied::Done,
                Put::Full | Put::OutOfRange => Applied::NoRoom,
            },
            To::Gone => {
                self.main.del(&update.key);
                Applied::Done
            }
        }
    }

    /// What a lookup finds under a key where the bit is this: the values, zeros where there are none. This takes no
    /// memory.
    #[tactic(auto, using(crate::proofs::Slots::seen_staged, crate::proofs::Slots::seen_other))]
    pub fn look(&self, bit: bool, key: &Values) -> Found
        ensures found { result.found ≡ is_some (spec.seen bit self.now key.now) }
        ensures values { result.values ≡ spec.seen_or_zeros bit self.now key.now }
    {
        if !bit {
            return self.main.get(key);
        }
        match self.staged.row(key) {
            Some(Some(values)) => Found {
                found: true,
                values,
            },
            Some(None) => Found {
                found: false,
                values: self.zeros,
            },
            None => self.main.get(key),
        }
    }

    /// The rows that lookups see where the bit is this, in strictly rising order of their keys.
    pub fn rows(&self, alloc: Global, bit: bool) -> Result<Rows, NoMemory>
        ensures { IfOk result (λ rows. rows ≡ spec.visible_rows bit self.now) }
    {
        if bit {
            self.rows_with_staged(alloc)
        } else {
            self.main.rows(alloc)
        }
    }

    #[tactic(auto, using(crate::proofs::Overlays::all_again))]
    fn rows_with_staged(&self, alloc: Global) -> Result<Rows, NoMemory>
        ensures { IfOk result (λ rows. rows ≡ spec.visible_rows true self.now) }
    {
        let main = self.main.rows(alloc)?;
        let count = main.len().min(u32::MAX as usize) as u32;
        let size = count.saturating_add(self.staged.room());
        let mut seen = SeenRows::new(alloc, &self.keys, &self.values, size)?;
        seen.put_all(&main)?;
        self.staged.write_over(alloc, &mut seen)?;
        let rows = seen.list(alloc)?;
        Ok(rows)
    }
}

// As many zeros.
fn zeros(count: usize) -> Values
    requires { count ≤ 8 }
    ensures { result ≡ replicate count 0 }
{
    let mut values = Values::new();
    for _ in 0..count {
        values.push(0);
    }
    values
}
