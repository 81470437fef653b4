//! Tables.
ghost use Rattle.std.specs.Prelude.{◌≡◌, ◌<◌, ◌≤◌, false, IfOk, length, if◌then◌else◌};
ghost use Rattle.std.specs.FinMap as map;
ghost use Rattle.slot_table.specs.Table.{Table, held, is_table_full, IsNextRow, IsWords, IsLaidOut};
ghost use Rattle.slot_table.specs.declared.table.Slot.TheVariants.{Stored, Full};

use crate::layout::lay_out;
use crate::place::{FIRST_SEED, home, next_seed, steps};
use crate::probing::{close, free, next_row, probe};
use gal_io::NoMemory;
use std::alloc::Global;
use std::marker::Model;

/// What an insert did.
#[derive(Clone, Copy, PartialEq, Eq)]
pub enum Slot {
    /// The row is stored.
    Stored,
    /// The table is at its capacity and the key is new. Nothing has changed.
    Full,
}

// The longest walk to an empty slot that isn't counted as a debt. Of keys that nobody chose, about one in a thousand
// walks further in a full table.
const FREE_STEPS: usize = 32;

/// A finite map with a capacity: rows of K words in a key and V words in a value. K and V are 1 or 2.
/// Rows lie in a circle of slots, more than twice as many as the capacity. A search begins at the home of its key and
/// goes from slot to slot, at most as far as the furthest row lies from its home; a removal moves rows back, so that no
/// search is cut short. Where too many steps were walked to store rows, all are laid out anew, by the next seed.
#[derive(Drop)]
pub struct SlotTable<const K: usize, const V: usize> {
    slots: Vec<Option<([u64; K], [u64; V])>>,
    // Memory for the rows while they are laid out anew.
    spare: Vec<([u64; K], [u64; V])>,
    // What homes are chosen by.
    seed: u64,
    // No row lies further from its home than so many steps.
    reach: usize,
    // The steps of long walks, since rows were laid out.
    debt: usize,
    len: usize,
    capacity: usize,
}

impl<const K: usize, const V: usize> Model for SlotTable<K, V> {
    ghost use Rattle.slot_table.specs.Table.{Table, table_code, rows_in};
    ghost use Rattle.slot_table.specs.Layout.{IsKept};
    ghost use Rattle.std.specs.Prelude.{vec_capacity};

    ghost Value = { Table };

    ghost coded = { table_code };

    ghost view = { λ a. record { rows = rows_in a.slots.items; capacity = a.capacity; slots = a.slots.items } };

    ghost invariant = { λ a.
        IsKept a.seed a.reach a.slots.items a.len a.capacity a.spare.items (vec_capacity a.spare) };
}

// The same slots again, in memory of their own.
fn copied<const K: usize, const V: usize>(
    alloc: Global,
    slots: &[Option<([u64; K], [u64; V])>],
) -> Result<Vec<Option<([u64; K], [u64; V])>>, NoMemory>
    ensures { IfOk result (λ made. made.items ≡ slots.now) }
{
    let mut made = Vec::with_capacity(alloc, slots.len())?;
    for slot in slots {
        made.push(*slot)?;
    }
    Ok(made)
}

impl<const K: usize, const V: usize> SlotTable<K, V> {
    /// A table without rows, with the memory for so many. No other call but `copy` takes memory.
    pub fn new(alloc: Global, capacity: usize) -> Result<Self, NoMemory>
        requires keys { IsWords K }
        requires values { IsWords V }
        ensures rows { IfOk result (λ table. table.rows ≡ map.empty) }
        ensures capacity { IfOk result (λ table. table.capacity ≡ capacity) }
        ensures slots { IfOk result (λ table. capacity < length table.slots) }
    {
        if capacity > usize::MAX / 2 - 1 {
            return Err(NoMemory);
        }
        let count = 2 * capacity + 1;
        let mut slots = Vec::new(alloc);
        slots.resize(count, None)?;
        let spare = Vec::with_capacity(alloc, capacity)?;
        Ok(SlotTable {
            slots,
            spare,
            seed: FIRST_SEED,
            reach: 0,
            debt: 0,
            len: 0,
            capacity,
        })
    }

    /// The same table again, in memory of its own.
    pub fn copy(&self, alloc: Global) -> Result<Self, NoMemory>
        requires keys { IsWords K }
        requires values { IsWords V }
        ensures { IfOk result (λ table. table ≡ self.now) }
    {
        let slots = copied(alloc, &self.slots)?;
        let spare = Vec::with_capacity(alloc, self.capacity)?;
        Ok(SlotTable {
            slots,
            spare,
            seed: self.seed,
            reach: self.reach,
            debt: self.debt,
            len: self.len,
            capacity: self.capacity,
        })
    }

    /// Sets the value under a key. At capacity a new key is refused.
    pub fn insert(&mut self, key: [u64; K], value: [u64; V]) -> Slot
        requires keys { IsWords K }
        requires values { IsWords V }
        ensures answer { result ≡ (if is_table_full self.old key.entry then Full else Stored) }
        ensures rows { self.new.rows ≡ (if is_table_full self.old key.entry then self.old.rows
            else map.insert self.old.rows key.entry value.entry) }
        ensures unchanged { result ≡ Full → self.new ≡ self.old }
        ensures capacity { self.new.capacity ≡ self.old.capacity }
        ensures slots { length self.new.slots ≡ length self.old.slots }
    {
        let start = home(self.seed, self.slots.len(), &key);
        match probe(&self.slots, &key, start, self.reach) {
            Ok(place) => {
                self.slots[place] = Some((key, value));
                Slot::Stored
            }
            Err(at) => {
                if self.len >= self.capacity {
                    return Slot::Full;
                }
                let gap = free(&self.slots, at);
                let walked = steps(self.slots.len(), start, gap);
                self.slots[gap] = Some((key, value));
                self.len += 1;
                self.reach = self.reach.max(walked);
                self.charge(walked);
                Slot::Stored
            }
        }
    }

    // Counts the steps that led to where a row was stored as a debt, where they were many. Where the debt is more than
    // the slots, or the square of these steps more than twice as much, the rows are laid out anew.
    fn charge(&mut self, walked: usize)
        requires keys { IsWords K }
        requires values { IsWords V }
        ensures rows { self.new.rows ≡ self.old.rows }
        ensures capacity { self.new.capacity ≡ self.old.capacity }
        ensures slots { length self.new.slots ≡ length self.old.slots }
    {
        if walked <= FREE_STEPS {
            return;
        }
        let count = self.slots.len();
        self.debt = self.debt.saturating_add(walked);
        if self.debt <= count && walked / 2 <= count / walked {
            return;
        }
        let seed = next_seed(self.seed);
        let reach = lay_out(&mut self.slots, &mut self.spare, seed);
        self.seed = seed;
        self.reach = reach;
        self.debt = 0;
    }

    /// Removes the row of a key. It answers whether there was one.
    pub fn remove(&mut self, key: &[u64; K]) -> bool
        requires keys { IsWords K }
        requires values { IsWords V }
        ensures was { result ≡ map.contains_key self.old.rows key.now }
        ensures rows { self.new.rows ≡ map.remove self.old.rows key.now }
        ensures unchanged { result ≡ false → self.new ≡ self.old }
        ensures capacity { self.new.capacity ≡ self.old.capacity }
        ensures slots { length self.new.slots ≡ length self.old.slots }
    {
        let start = home(self.seed, self.slots.len(), key);
        match probe(&self.slots, key, start, self.reach) {
            Ok(place) => {
                self.slots[place] = None;
                close(&mut self.slots, self.seed, self.reach, place);
                self.len -= 1;
                true
            }
            Err(_) => false,
        }
    }

    /// The value under a key.
    pub fn look(&self, key: &[u64; K]) -> Option<[u64; V]>
        requires keys { IsWords K }
        requires values { IsWords V }
        ensures { result ≡ map.get self.now.rows key.now }
    {
        let start = home(self.seed, self.slots.len(), key);
        match probe(&self.slots, key, start, self.reach) {
            Ok(place) => match &self.slots[place] {
                Some(row) => {
                    let value = row.1;
                    Some(value)
                }
                None => None,
            },
            Err(_) => None,
        }
    }

    /// How many rows there are.
    pub fn len(&self) -> usize
        requires keys { IsWords K }
        requires values { IsWords V }
        ensures count { result ≡ map.len self.now.rows }
        ensures within { map.len self.now.rows ≤ self.now.capacity }
    {
        self.len
    }

    /// How many slots there are. A walk over all of them meets each row once.
    pub fn slots(&self) -> usize
        requires keys { IsWords K }
        requires values { IsWords V }
        ensures count { result ≡ length self.now.slots }
        ensures spare { self.now.capacity < length self.now.slots }
        ensures rows { IsLaidOut self.now.rows self.now.slots }
    {
        self.slots.len()
    }

    /// The row in a slot, if it holds one.
    pub fn slot(&self, i: usize) -> Option<([u64; K], [u64; V])>
        requires keys { IsWords K }
        requires values { IsWords V }
        requires within { i < length self.now.slots }
        ensures { result ≡ held self.now.slots i }
    {
        self.slots[i]
    }

    /// The first slot from a slot on that holds a row, or the number of slots where none does.
    pub fn next_row(&self, from: usize) -> usize
        requires keys { IsWords K }
        requires values { IsWords V }
        requires within { from ≤ length self.now.slots }
        ensures { IsNextRow self.now.slots from result }
    {
        next_row(&self.slots, from)
    }
}
