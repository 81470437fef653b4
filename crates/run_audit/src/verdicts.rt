//! The serial run of the source against the verdicts of a report.
ghost use Rattle.std.specs.Prelude.{◌≡◌, ◌↔◌, ◌<◌, true, length, slice_get, All, IsTrue, IfOk, MatchOption};
ghost use Rattle.state_store.specs.Store.{start_store};
ghost use Rattle.element_lang.specs.View.{tree};
ghost use Rattle.element_lang.specs.Rules.{is_good};
ghost use Rattle.run_model.specs.Serialises.{released_at, run_store};
ghost use Rattle.run_audit.specs.Source.{source_of};
ghost use Rattle.run_audit.specs.Told.{HasVerdicts, IsFalse, IsFirst};

use element_lang::Middlebox;
use gal_io::NoMemory;
use packet_fields::{Packets, Verdict};
use run_model::{Fate, Run};
use state_store::Store;
use std::alloc::Global;

// Whether two verdicts are the same.
fn is_same(one: &Verdict, other: &Verdict) -> bool
    ensures { IsTrue result ↔ (one.now ≡ other.now) }
{
    match (one, other) {
        (Verdict::Drop, Verdict::Drop) => true,
        (Verdict::Send(port, bytes), Verdict::Send(other_port, other_bytes)) => {
            port == other_port && bytes.as_slice() == other_bytes.as_slice()
        }
        _ => false,
    }
}

// Whether a packet that was released has this verdict. One that wasn't may have any.
fn agrees(fates: &[Fate], number: u32, verdict: &Verdict) -> bool
    ensures { MatchOption (released_at (slice_get fates.now number)) (result ≡ true)
        (λ told. IsTrue result ↔ (verdict.now ≡ told.1)) }
{
    match fates.get(number as usize) {
        Some(Fate::Slow { verdict: told, .. } | Fate::Fast { verdict: told, .. }) => {
            is_same(verdict, told)
        }
        _ => true,
    }
}

/// Runs the packets of the order one after the other, from the store that runs start with, up to the first that was
/// released with another verdict, and answers its number.
pub(crate) fn run_in_order(
    alloc: Global,
    m: &Middlebox,
    packets: &Packets,
    run: &Run,
    store: &mut Store,
) -> Result<Option<u32>, NoMemory>
    requires good { IsTrue (is_good (tree m.now)) }
    requires start { store.old ≡ start_store m.now.objects }
    requires within { All (λ number. number < length packets.now) run.now.order }
    ensures found { IfOk result (λ found. MatchOption found (HasVerdicts (source_of (tree m.now) packets.now) run.now)
        (λ p. IsFirst (IsFalse (source_of (tree m.now) packets.now) run.now) run.now.order p)) }
    ensures store { IfOk result (λ found. MatchOption found
        (store.new ≡ run_store (source_of (tree m.now) packets.now) run.now) (λ _. Unit {0})) }
{
    let fates = run.fates.as_slice();
    let order = run.order.as_slice();
    let arrived = packets.as_slice();
    for number in order {
        let packet = &arrived[*number as usize];
        let verdict = element_interp::run(alloc, m, store, packet.port, packet.bytes.as_slice())?;
        if !agrees(fates, *number, &verdict) {
            return Ok(Some(*number));
        }
    }
    Ok(None)
}
