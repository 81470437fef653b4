//! What two sides assigned that began alike.
ghost use Rattle.std.specs.Prelude.{◌≡◌, ◌++◌, map, slice_set, IfOk, OnOk};
ghost use Rattle.flatten.specs.Journal as pure;

use crate::entry::{Change, Entry};
use crate::state::{set_at, value_or_none};
use flat_ir::ValueId;
use std::alloc::{AllocError, Global};

/// Takes assignments back, the latest first, and answers how they are done again.
#[tactic(auto, using(crate::proofs::Journals::undone_last, crate::proofs::Journals::undone_set))]
pub(crate) fn undo(
    alloc: Global,
    locals: &mut [Option<ValueId>],
    entries: Vec<Entry>,
) -> Result<Vec<Entry>, AllocError>
    ensures undone { OnOk result (locals.new ≡ pure.undone entries.items locals.old) }
    ensures back { IfOk result (λ back. pure.undone back.items locals.new ≡ locals.old) }
{
    let mut left = entries;
    let mut back = Vec::with_capacity(alloc, left.len())?;
    while let Some(entry) = left.pop() {
        let place = entry.local as usize;
        back.push(Entry {
            local: entry.local,
            before: value_or_none(locals, place),
        })?;
        set_at(locals, place, entry.before);
    }
    Ok(back)
}

/// Gives a local another value, or none, and notes the one before where they differ.
#[tactic(auto, using(crate::proofs::Journals::undone_set, crate::proofs::Journals::set_same))]
pub(crate) fn set(
    locals: &mut [Option<ValueId>],
    entries: &mut Vec<Entry>,
    x: u32,
    value: Option<ValueId>,
) -> Result<(), AllocError>
    ensures locals { OnOk result (locals.new ≡ slice_set locals.old x value) }
    ensures undone { OnOk result (pure.undone entries.new.items locals.new ≡ pure.undone entries.old.items locals.old) }
{
    let before = value_or_none(locals, x as usize);
    if before != value {
        entries.push(Entry { local: x, before })?;
        set_at(locals, x as usize, value);
    }
    Ok(())
}

// The locals of entries, behind others.
fn push_locals(locals: &mut Vec<u32>, entries: &[Entry]) -> Result<(), AllocError>
    ensures { OnOk result (locals.new.items ≡ locals.old.items ++ pure.entry_locals entries.now) }
{
    for entry in entries {
        locals.push(entry.local)?;
    }
    Ok(())
}

// The locals of these entries, each once and in rising order.
fn assigned(alloc: Global, first: &[Entry], second: &[Entry]) -> Result<Vec<u32>, AllocError>
    ensures { IfOk result (λ locals. pure.AreAssigned first.now second.now locals.items) }
{
    let mut locals = Vec::new(alloc);
    push_locals(&mut locals, first)?;
    push_locals(&mut locals, second)?;
    locals.sort()?;
    locals.dedup();
    Ok(locals)
}

// The entries of some locals, with their values on the second side.
fn seconds_of(
    alloc: Global,
    second: &[Option<ValueId>],
    locals: &[u32],
) -> Result<Vec<Change>, AllocError>
    ensures { IfOk result (λ made. made.items ≡ map (pure.second_at second.now) locals.now) }
{
    let mut made = Vec::with_capacity(alloc, locals.len())?;
    for local in locals {
        made.push(Change {
            local: *local,
            first: None,
            second: value_or_none(second, *local as usize),
        })?;
    }
    Ok(made)
}

// The same with their values on the first side.
fn with_firsts(
    alloc: Global,
    first: &[Option<ValueId>],
    changes: &[Change],
) -> Result<Vec<Change>, AllocError>
    ensures { IfOk result (λ made. made.items ≡ map (pure.with_first first.now) changes.now) }
{
    let mut made = Vec::with_capacity(alloc, changes.len())?;
    for change in changes {
        made.push(Change {
            first: value_or_none(first, change.local as usize),
            ..*change
        })?;
    }
    Ok(made)
}

/// The changes of two sides, of which the second is here and the first is had again from where both began: the locals
/// are then as they were there.
pub(crate) fn sides(
    alloc: Global,
    locals: &mut [Option<ValueId>],
    first: Vec<Entry>,
    second: Vec<Entry>,
) -> Result<Vec<Change>, AllocError>
    ensures start { OnOk result (locals.new ≡ pure.undone second.items locals.old) }
    ensures changes { let start = pure.undone second.items locals.old in
        IfOk result (λ changes. pure.AreSides (pure.undone first.items start) locals.old start changes.items) }
{
    let names = assigned(alloc, &first, &second)?;
    let seconds = seconds_of(alloc, locals, &names)?;
    undo(alloc, locals, second)?;
    let back = undo(alloc, locals, first)?;
    let changes = with_firsts(alloc, locals, &seconds)?;
    undo(alloc, locals, back)?;
    Ok(changes)
}
