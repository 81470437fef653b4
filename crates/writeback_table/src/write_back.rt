//! The write-back table of one object.
ghost use Rattle.std.specs.Prelude.{◌≡◌, ◌<◌, ◌-◌, ◌^◌, ◌||◌, false, IfOk, OnOk, if◌then◌else◌};
ghost use Rattle.std.specs.FinMap as map;
ghost use Rattle.state_store.specs.Store.{put_row, del_row};
ghost use Rattle.writeback_table.specs.Pair.{can_stage, values_of, with_change, with_staged};
ghost use Rattle.writeback_table.specs.Staging.{joined, IsCounted, values_then, gone_then};
ghost use Rattle.writeback_table.specs.Staging as rows;

use crate::command::{Applied, To, Update};
use crate::one_object::{OneObject, map_of_widths};
use crate::seen_rows::SeenRows;
use gal_bits::Values;
use gal_io::NoMemory;
use state_store::ObjectDecl;
use std::alloc::Global;
use std::marker::Model;

/// Rows that are staged: under a key the values that it is to have, or none where it is to be gone. A key is in at most
/// one of the two maps.
#[derive(Drop)]
pub struct WriteBack {
    values: OneObject,
    gone: OneObject,
    count: u32,
    room: u32,
}

impl Model for WriteBack {
    ghost use Rattle.writeback_table.specs.Codes.{write_back_code};
    ghost use Rattle.writeback_table.specs.Staging.{joined, IsCounted};
    ghost use Rattle.writeback_table.specs.Staging as rows;

    ghost Value = { rows.WriteBack };

    ghost coded = { write_back_code };

    ghost view = { λ t. record { rows = joined t.values.contents t.gone.contents; room = t.room } };

    ghost invariant = { λ t. IsCounted t.values t.gone t.count t.room };
}

impl WriteBack {
    /// No rows, with the memory for so many.
    pub fn new(alloc: Global, object: &ObjectDecl, room: u32) -> Result<WriteBack, NoMemory>
        ensures { IfOk result (λ made. made ≡ record { rows = map.empty; room = room }) }
    {
        let rows = map_of_widths(alloc, &object.keys, &object.values, room);
        let values = OneObject::new(alloc, &rows)?;
        let gone = OneObject::new(alloc, &rows)?;
        Ok(WriteBack {
            values,
            gone,
            count: 0,
            room,
        })
    }

    /// How many rows may be staged.
    pub fn room(&self) -> u32
        ensures { result ≡ self.now.room }
    {
        self.room
    }

    /// What is staged under a key, if anything is.
    #[tactic(auto, using(crate::proofs::Joins::staged_value, crate::proofs::Joins::staged_gone, crate::proofs::Joins::staged_none))]
    pub fn row(&self, key: &Values) -> Option<Option<Values>>
        ensures { result ≡ map.get self.now.rows key.now }
    {
        if let Some(values) = self.values.find(key) {
            return Some(Some(values));
        }
        if self.gone.find(key).is_some() {
            Some(None)
        } else {
            None
        }
    }

    /// Stages a change. This takes no memory.
    pub fn stage(&mut self, update: &Update) -> Applied
        ensures answer { let fits = can_stage self.old.rows self.old.room update.now.key in
            result ≡ (if fits then Applied.Done else Applied.NoRoom) }
        ensures after { self.new ≡ record self.old { rows = with_change self.old.rows self.old.room update.now } }
    {
        if self.count >= self.room && self.row(&update.key).is_none() {
            return Applied::NoRoom;
        }
        self.count = stage_row(
            &mut self.values,
            &mut self.gone,
            self.count,
            self.room,
            update,
        );
        Applied::Done
    }

    /// Writes what is staged over the rows of a table.
    #[tactic(auto, using(crate::proofs::Overlays::written_over))]
    pub fn write_over(&self, alloc: Global, rows: &mut SeenRows) -> Result<(), NoMemory>
        ensures { OnOk result (rows.new ≡ with_staged (map.entries self.now.rows) rows.old) }
    {
        let gone = self.gone.rows(alloc)?;
        rows.remove_all(&gone);
        let values = self.values.rows(alloc)?;
        rows.put_all(&values)?;
        Ok(())
    }

    /// Removes a key from what is staged.
    pub fn clear(&mut self, key: &Values)
        ensures { self.new ≡ record self.old { rows = map.remove self.old.rows key.now } }
    {
        self.count = clear_row(&mut self.values, &mut self.gone, self.count, self.room, key);
    }
}

// Stages a row, and answers how many there are then.
fn stage_row(
    values: &mut OneObject,
    gone: &mut OneObject,
    count: u32,
    room: u32,
    update: &Update,
) -> u32
    requires counted { IsCounted values.old gone.old count room }
    requires not_joined { map.contains_key (joined values.old.contents gone.old.contents) update.now.key ≡ false
        → count < room }
    ensures rows { joined values.new.contents gone.new.contents
        ≡ map.insert (joined values.old.contents gone.old.contents) update.now.key (values_of update.now.to) }
    ensures counted { IsCounted values.new gone.new result room }
{
    let known = write_row(values, gone, update);
    count_in(known, count)
}

// Writes a row into one of two maps, and takes its key out of the other. It answers whether one of them had the key.
fn write_row(values: &mut OneObject, gone: &mut OneObject, update: &Update) -> bool
    ensures values { values.new ≡ values_then values.old update.now.key update.now.to }
    ensures gone { gone.new ≡ gone_then gone.old update.now.key update.now.to }
    ensures known { result ≡ map.contains_key (joined values.old.contents gone.old.contents) update.now.key }
{
    match update.to {
        To::Value(row) => move_row(gone, values, &update.key, &row),
        To::Gone => move_row(values, gone, &update.key, &Values::new()),
    }
}

// Takes a key out of one map, and puts a row under it into the other. It answers whether one of them had the key.
fn move_row(from: &mut OneObject, to: &mut OneObject, key: &Values, row: &Values) -> bool
    ensures from { from.new ≡ del_row from.old key.now }
    ensures to { to.new ≡ put_row to.old key.now row.now }
    ensures known { result
        ≡ (map.contains_key from.old.contents key.now || map.contains_key to.old.contents key.now) }
{
    let known = from.del(key) || to.get(key).found;
    let _ = to.put(key, row);
    known
}

fn count_in(known: bool, count: u32) -> u32
    requires { known ≡ false → count < 2 ^ 32 - 1 }
    ensures { result ≡ rows.count_in known count }
{
    if known { count } else { count + 1 }
}

fn count_out(known: bool, count: u32) -> u32
    ensures { result ≡ rows.count_out known count }
{
    if known {
        count.saturating_sub(1)
    } else {
        count
    }
}

// Removes a key from what is staged, and answers how many rows there are then.
fn clear_row(
    values: &mut OneObject,
    gone: &mut OneObject,
    count: u32,
    room: u32,
    key: &Values,
) -> u32
    requires counted { IsCounted values.old gone.old count room }
    ensures rows { joined values.new.contents gone.new.contents
        ≡ map.remove (joined values.old.contents gone.old.contents) key.now }
    ensures counted { IsCounted values.new gone.new result room }
{
    let known = remove_row(values, gone, key);
    count_out(known, count)
}

// Takes a key out of both maps. It answers whether one of them had the key.
fn remove_row(values: &mut OneObject, gone: &mut OneObject, key: &Values) -> bool
    ensures values { values.new ≡ del_row values.old key.now }
    ensures gone { gone.new ≡ del_row gone.old key.now }
    ensures known { result
        ≡ (map.contains_key values.old.contents key.now || map.contains_key gone.old.contents key.now) }
{
    let was_gone = gone.del(key);
    values.del(key) || was_gone
}
