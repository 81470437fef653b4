//! Rows that are laid out anew.
ghost use Rattle.std.specs.Prelude.{◌≡◌, ◌<◌, ◌≤◌, [], ◌++◌, None, IfSome, length, option_to_list, replicate};
ghost use Rattle.std.specs.Prelude.{vec_capacity, vec_len};
ghost use Rattle.slot_table.specs.Table.{IsWords};
ghost use Rattle.slot_table.specs.Probing.{HasGap};
ghost use Rattle.slot_table.specs.Layout.{slot_rows, CanLayOut, IsLaidAnew, IsSettled};

use crate::place::{home, steps};
use crate::probing::free;

// Lists the rows that slots hold.
fn list<const K: usize, const V: usize>(
    slots: &[Option<([u64; K], [u64; V])>],
    rows: &mut Vec<([u64; K], [u64; V])>,
)
    requires room { length (slot_rows slots.now) ≤ vec_capacity rows.old }
    requires empty { rows.old.items ≡ [] }
    ensures rows { rows.new.items ≡ slot_rows slots.now }
    ensures capacity { vec_capacity rows.old ≤ vec_capacity rows.new }
{
    for slot in slots {
        list_slot(slot, rows);
    }
}

// Lists the row that a slot holds, if it holds one.
fn list_slot<const K: usize, const V: usize>(
    slot: &Option<([u64; K], [u64; V])>,
    rows: &mut Vec<([u64; K], [u64; V])>,
)
    requires room { IfSome slot.now (λ _. vec_len rows.old < vec_capacity rows.old) }
    ensures rows { rows.new.items ≡ rows.old.items ++ option_to_list slot.now }
    ensures capacity { vec_capacity rows.old ≤ vec_capacity rows.new }
{
    if let Some(row) = slot {
        let _ = rows.push(*row);
    }
}

// Takes the rows out of all slots.
fn clear<const K: usize, const V: usize>(slots: &mut Vec<Option<([u64; K], [u64; V])>>)
    ensures { slots.new.items ≡ replicate (length slots.old.items) None }
{
    let count = slots.len();
    slots.clear();
    let _ = slots.resize(count, None);
}

// Stores a row in the first empty slot from its home on, and answers how many steps lead there.
fn settle<const K: usize, const V: usize>(
    slots: &mut Vec<Option<([u64; K], [u64; V])>>,
    seed: u64,
    row: ([u64; K], [u64; V]),
) -> usize
    requires { HasGap slots.old.items }
    ensures { IsSettled seed slots.old.items row.entry slots.new.items result }
{
    let count = slots.len();
    let start = home(seed, count, &row.0);
    let gap = free(slots, start);
    slots[gap] = Some(row);
    steps(count, start, gap)
}

/// Lays the rows out anew by a seed, and answers how many steps from its home a row lies at most. The spare memory has
/// room for all rows.
pub fn lay_out<const K: usize, const V: usize>(
    slots: &mut Vec<Option<([u64; K], [u64; V])>>,
    spare: &mut Vec<([u64; K], [u64; V])>,
    seed: u64,
) -> usize
    requires slots { CanLayOut slots.old.items }
    requires room { length (slot_rows slots.old.items) ≤ vec_capacity spare.old }
    requires empty { spare.old.items ≡ [] }
    ensures slots { IsLaidAnew seed result slots.old.items slots.new.items }
    ensures empty { spare.new.items ≡ [] }
    ensures capacity { vec_capacity spare.old ≤ vec_capacity spare.new }
{
    list(slots, spare);
    clear(slots);
    let mut reach: usize = 0;
    while let Some(row) = spare.pop() {
        reach = reach.max(settle(slots, seed, row));
    }
    reach
}
