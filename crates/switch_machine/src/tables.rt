//! The tables of a switch.
ghost use Rattle.std.specs.Prelude.{◌≡◌, ℕ, ◌≤◌, [], false, is_some, IfOk};
ghost use Rattle.state_store.specs.Store.{look, looked_up, no_object, object_at, start_object};
ghost use Rattle.switch_ir.specs.Code.{code_of};
ghost use Rattle.switch_ir.specs.Tables.{told_after, pair_at, staging_room, seen_tables, start_pair, declared_at, view_of, with_command, IsStart};
ghost use Rattle.writeback_table.specs.Pair.{visible_rows};

use flat_ir::Lookup;
use gal_bits::{Values, Widths};
use gal_io::{Bytes, NoMemory};
use state_store::{Found, Kind, ObjectDecl, Rows};
use std::alloc::Global;
use std::marker::Model;
use switch_ir::{SwitchCode, Table};
use writeback_table::{Command, Pair};

/// The main table and the write-back table of each object, by its number, and the bit that says whether lookups see the
/// write-back tables. An object that no pass looks up has tables without rows, and with room for none.
#[derive(Drop)]
pub(crate) struct SwitchTables {
    pairs: Vec<Pair>,
    bit: bool,
}

impl Model for SwitchTables {
    ghost use Rattle.switch_ir.specs.Tables.{Told};
    ghost use Rattle.switch_machine.specs.Codes.{told_code};

    ghost Value = { Told };

    ghost coded = { told_code };

    ghost view = { λ tables. record { pairs = tables.pairs.items; bit = tables.bit } };
}

impl Lookup for SwitchTables {
    ghost use Rattle.switch_ir.specs.Tables.{seen_tables};

    ghost seen = { seen_tables };

    fn find(&self, object: u32, key: &Values) -> Found {
        self.find_by(self.bit, object, key)
    }
}

/// The tables as a pass sees them that entered with this bit.
#[derive(Clone, Copy)]
pub(crate) struct View<'a> {
    pub tables: &'a SwitchTables,
    pub bit: bool,
}

impl Lookup for View<'_> {
    ghost use Rattle.switch_ir.specs.Tables.{view_of};

    ghost seen = { λ view. view_of view.bit view.tables.now.pairs };

    fn find(&self, object: u32, key: &Values) -> Found {
        self.tables.find_by(self.bit, object, key)
    }
}

impl SwitchTables {
    /// No tables at all.
    pub fn none(alloc: Global) -> SwitchTables
        ensures { result ≡ record { pairs = []; bit = false } }
    {
        SwitchTables {
            pairs: Vec::new(alloc),
            bit: false,
        }
    }

    /// The bit.
    pub fn bit(&self) -> bool
        ensures { result ≡ self.now.bit }
    {
        self.bit
    }

    /// The tables as lookups see them now.
    pub fn as_seen(&self) -> View<'_>
        ensures { view_of result.bit result.tables.now.pairs ≡ seen_tables self.now }
    {
        View {
            tables: self,
            bit: self.bit,
        }
    }

    /// What a lookup finds that sees the tables by this bit.
    pub fn find_by(&self, bit: bool, object: u32, key: &Values) -> Found
        ensures found { result.found ≡ is_some (look (object_at (view_of bit self.now.pairs) object) key.now) }
        ensures values { result.values ≡ looked_up (object_at (view_of bit self.now.pairs) object) key.now }
    {
        let number = object as usize;
        if number < self.pairs.len() {
            self.pairs[number].look(bit, key)
        } else {
            Found {
                found: false,
                values: Values::new(),
            }
        }
    }

    /// The tables that code starts with.
    pub fn start(alloc: Global, code: &SwitchCode) -> Result<SwitchTables, NoMemory>
        ensures { IfOk result (λ tables. IsStart (code_of code.now) tables) }
    {
        let tables = code.tables.as_slice();
        let mut pairs = Vec::new(alloc);
        for number in 0..object_count(tables) {
            pairs.push(start_pair(alloc, tables, number, code.writeback)?)?;
        }
        Ok(SwitchTables { pairs, bit: false })
    }

    /// Applies a command. This takes no memory.
    pub fn apply(&mut self, command: &Command)
        ensures { self.new ≡ told_after command.now self.old }
    {
        match command {
            Command::Stage(update) => apply_to(&mut self.pairs, update.object, command),
            Command::On => self.bit = true,
            Command::Main(update) => apply_to(&mut self.pairs, update.object, command),
            Command::Off => self.bit = false,
            Command::Clear(object, _) => apply_to(&mut self.pairs, *object, command),
        }
    }

    /// The rows of an object that lookups see.
    pub fn rows(&self, alloc: Global, object: u32) -> Result<Rows, NoMemory>
        ensures { IfOk result (λ rows. rows ≡ visible_rows self.now.bit (pair_at self.now.pairs object)) }
    {
        let number = object as usize;
        if number < self.pairs.len() {
            self.pairs[number].rows(alloc, self.bit)
        } else {
            Ok(Rows::new(alloc))
        }
    }
}

// Applies a command to the tables of an object.
fn apply_to(pairs: &mut Vec<Pair>, object: u32, command: &Command)
    ensures { pairs.new.items ≡ with_command pairs.old.items object command.now }
{
    let number = object as usize;
    if number < pairs.len() {
        let _ = pairs[number].apply(command);
    }
}

// A number above that of each object that is looked up.
fn object_count(tables: &[Table]) -> u64
    ensures { (o : ℕ) → result ≤ o → declared_at tables.now o ≡ None }
{
    let mut count = 0;
    for table in tables {
        count = (u64::from(table.number) + 1).max(count);
    }
    count
}

// The tables of the object of this number before any command.
fn start_pair(
    alloc: Global,
    tables: &[Table],
    number: u64,
    writeback: u32,
) -> Result<Pair, NoMemory>
    ensures { IfOk result (λ pair. pair ≡ start_pair writeback (declared_at tables.now number)) }
{
    for table in tables {
        if u64::from(table.number) == number {
            let room = staging_room(&table.object, writeback);
            return Pair::new(alloc, &table.object, room);
        }
    }
    Pair::new(alloc, &no_object(alloc), 0)
}

// How many rows the write-back table of an object has room for.
fn staging_room(object: &ObjectDecl, writeback: u32) -> u32
    ensures { result ≡ staging_room writeback object.now }
{
    match object.kind {
        Kind::Table => 0,
        Kind::Map | Kind::Vector | Kind::Int => writeback,
    }
}

// An object without rows, and with room for none.
fn no_object(alloc: Global) -> ObjectDecl
    ensures { start_object result ≡ no_object }
{
    ObjectDecl {
        name: Bytes::new(alloc),
        kind: Kind::Map,
        keys: Widths::new(),
        values: Widths::new(),
        size: 0,
        start: 0,
        rows: Rows::new(alloc),
    }
}
