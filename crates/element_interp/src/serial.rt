//! Packets that come one after the other.
ghost use Rattle.std.specs.Prelude.{◌≡◌, ◌≤◌, length, All, IfOk, IsTrue};
ghost use Rattle.state_store.specs.Store.{start_store};
ghost use Rattle.element_lang.specs.View.{tree};
ghost use Rattle.element_lang.specs.Rules.{is_good};
ghost use Rattle.element_lang.specs.Meaning.{serial_store, serial_verdicts};
ghost use Rattle.packet_fields.specs.Sizes.{largest_packet};

use crate::interp::{Ran, run_in};
use element_lang::Middlebox;
use gal_io::NoMemory;
use packet_fields::{Packet, Verdict};
use state_store::Store;
use std::alloc::Global;

/// What came of some packets, and what they left.
#[derive(Drop)]
pub struct SerialRun {
    /// The verdict of each packet, in order.
    pub verdicts: Vec<Verdict>,
    /// The store behind the last one.
    pub store: Store,
}

/// Runs a middlebox on packets of at most 9,216 bytes, one after the other: the first from the store that runs start
/// with, each other one from what the one before has left.
pub fn run_all(alloc: Global, m: &Middlebox, packets: &[Packet]) -> Result<SerialRun, NoMemory>
    requires good { IsTrue (is_good (tree m.now)) }
    requires short { All (λ p. length p.bytes ≤ largest_packet) packets.now }
    ensures verdicts { IfOk result
        (λ served. served.verdicts.items ≡ serial_verdicts (tree m.now) (start_store m.now.objects) packets.now) }
    ensures store { IfOk result
        (λ served. served.store ≡ serial_store (tree m.now) (start_store m.now.objects) packets.now) }
{
    let mut store = Store::new(alloc, &m.objects)?;
    let mut verdicts = Vec::with_capacity(alloc, packets.len())?;
    let mut memory = Vec::new(alloc);
    for packet in packets {
        let bytes = packet.bytes.as_slice();
        let Ran { verdict, locals } = run_in(alloc, m, &mut store, packet.port, bytes, memory)?;
        verdicts.push(verdict)?;
        memory = locals;
    }
    Ok(SerialRun { verdicts, store })
}
