//! The rows of a report.
ghost use Rattle.std.specs.Prelude.{◌≡◌, ◌↔◌, ◌<◌, ◌^◌, length, IsTrue, IfOk, MatchOption};
ghost use Rattle.run_model.specs.Parts.{parts_of};
ghost use Rattle.run_audit.specs.Told.{IsFirstUnlike};

use element_lang::Middlebox;
use gal_io::NoMemory;
use run_model::{ObjectRows, Run, store_rows};
use state_store::Store;
use std::alloc::Global;

fn is_same_part(one: &ObjectRows, other: &ObjectRows) -> bool
    ensures { IsTrue result ↔ (one.now ≡ other.now) }
{
    one.object == other.object && one.rows.is_same(&other.rows)
}

// The object of the wanted part at the first place at which the part that is told isn't the wanted one, or of the told
// one where no more are wanted.
fn first_apart(told: &[ObjectRows], wanted: &[ObjectRows]) -> Option<u32>
    ensures { MatchOption result (told.now ≡ wanted.now) (λ object. IsFirstUnlike told.now wanted.now object) }
{
    for place in 0..wanted.len() {
        if place >= told.len() || !is_same_part(&told[place], &wanted[place]) {
            return Some(wanted[place].object);
        }
    }
    match told.get(wanted.len()) {
        Some(part) => Some(part.object),
        None => None,
    }
}

/// The first object whose rows aren't those of the store that the serial run leaves.
pub(crate) fn first_unlike(
    alloc: Global,
    m: &Middlebox,
    store: &Store,
    run: &Run,
) -> Result<Option<u32>, NoMemory>
    requires { length m.now.objects < 2 ^ 32 }
    ensures { IfOk result (λ found. MatchOption found (run.now.objects ≡ parts_of m.now.objects store.now)
        (λ object. IsFirstUnlike run.now.objects (parts_of m.now.objects store.now) object)) }
{
    let wanted = store_rows(alloc, m.objects.as_slice(), store)?;
    Ok(first_apart(run.objects.as_slice(), wanted.as_slice()))
}
