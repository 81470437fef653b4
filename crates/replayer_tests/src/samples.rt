//! Middleboxes that are split, and packets for them: packets of flows of an address translator, a program that leaves every
//! packet to the server, and one whose packets change a table of the switch too.
ghost use Rattle.std.specs.Prelude.{◌≡◌, ◌≤◌, ◌<◌, length, IfOk};
ghost use Rattle.flat_ir.specs.Program.{program_of};
ghost use Rattle.run_model.specs.Sizes.{most_packets};
ghost use Rattle.state_store.specs.Kept.{IsKept};
ghost use Rattle.state_store.specs.Store.{start_store};
ghost use Rattle.replayer_tests.specs.Ready.{IsReady};

use element_text::read;
use flat_ir::Flat;
use flatten::flatten;
use gal_io::Bytes;
use packet_fields::{Packet, Packets};
use partition::partition;
use replay_contracts::Job;
use run_model::Events;
use split_model::is_bounded;
use std::alloc::Global;
use std::test::Fail;
use traffic_generator::translator_limits;

/// A packet leaves by the port of its first byte.
pub(crate) const FORWARDS: &str = "process { send byte(0:16); }";

/// So it does, and the switch hears of it.
pub(crate) const TELLS: &str =
    "map seen (8) -> (8) capacity 256; process { look f, n = seen[0:8]; put a = seen[byte(0:16)] -> 1:8; send byte(0:16); }";

// From 10.0.0.1 port 5000 to 198.51.100.7 port 80.
const OUTGOING: [u8; 54] = [
    0x02, 0, 0, 0, 0, 0x01, 0x02, 0, 0, 0, 0, 0x02, 0x08, 0, 0x45, 0, 0, 0x28, 0, 0x01, 0x40, 0,
    0x40, 0x06, 0x06, 0x94, 10, 0, 0, 1, 198, 51, 100, 7, 0x13, 0x88, 0, 80, 0, 0, 0, 0, 0, 0, 0,
    0, 0x50, 0x02, 0x20, 0, 0x47, 0xcf, 0, 0,
];

// From there to 192.0.2.1 port 1024.
const REPLY: [u8; 54] = [
    0x02, 0, 0, 0, 0, 0x01, 0x02, 0, 0, 0, 0, 0x02, 0x08, 0, 0x45, 0, 0, 0x28, 0, 0x02, 0x40, 0,
    0x40, 0x06, 0x4e, 0x92, 198, 51, 100, 7, 192, 0, 2, 1, 0, 80, 0x04, 0, 0, 0, 0, 0, 0, 0, 0, 1,
    0x50, 0x12, 0x20, 0, 0x9f, 0x45, 0, 0,
];

// The first packet of a flow from the inside.
fn outgoing(alloc: Global, flow: u8) -> Result<Packet, Fail>
    requires { flow < 8 }
    ensures { IfOk result (λ packet. length packet.bytes ≡ 54) }
{
    let mut bytes = OUTGOING;
    bytes[35] = 0x88 + flow;
    bytes[51] = 0xcf - flow;
    Ok(Packet {
        port: 0,
        bytes: Bytes::from_slice(alloc, &bytes)?,
    })
}

// What answers it, to the port that the flow has outside.
fn reply(alloc: Global, flow: u8) -> Result<Packet, Fail>
    requires { flow < 8 }
    ensures { IfOk result (λ packet. length packet.bytes ≡ 54) }
{
    let mut bytes = REPLY;
    bytes[37] = flow;
    bytes[51] = 0x45 - flow;
    Ok(Packet {
        port: 1,
        bytes: Bytes::from_slice(alloc, &bytes)?,
    })
}

/// So many packets of the first flow.
pub(crate) fn one_flow(alloc: Global, count: usize) -> Result<Packets, Fail> {
    let mut packets = Packets::new(alloc);
    for _ in 0..count {
        packets.push(outgoing(alloc, 0)?)?;
    }
    Ok(packets)
}

/// Eight flows in turn: four packets of each, and then four replies to each.
pub(crate) fn eight_flows(alloc: Global) -> Result<Packets, Fail> {
    let mut packets = Packets::new(alloc);
    for number in 0..64u8 {
        let flow = number % 8;
        let packet = if number < 32 {
            outgoing(alloc, flow)?
        } else {
            reply(alloc, flow)?
        };
        packets.push(packet)?;
    }
    Ok(packets)
}

/// Packets of one byte each, from port 0.
pub(crate) fn of_bytes(alloc: Global, bytes: &[u8]) -> Result<Packets, Fail> {
    let mut packets = Packets::new(alloc);
    for byte in bytes {
        packets.push(Packet {
            port: 0,
            bytes: Bytes::from_slice(alloc, &[*byte])?,
        })?;
    }
    Ok(packets)
}

// A split that may be replayed: a write-back table has a row for each instruction that a program may have.
fn job_of(alloc: Global, flat: Flat, packets: Packets) -> Result<Job, Fail>
    requires kept { IsKept (program_of flat).objects (start_store (program_of flat).objects) }
    requires few_packets { length packets ≤ most_packets }
    ensures { IfOk result IsReady }
{
    if !is_bounded(&flat) {
        return Err(Fail::from("not bounded"));
    }
    let split = partition(alloc, &flat, &translator_limits(), false)?;
    Ok(Job {
        flat,
        split,
        writeback: 4096,
        packets,
        fine: false,
        events: Events::new(alloc),
        drain: false,
    })
}

/// A source with these packets, which are at most 64.
pub(crate) fn job(alloc: Global, source: &str, packets: Packets) -> Result<Job, Fail>
    ensures { IfOk result IsReady }
{
    if packets.len() > 64 {
        return Err(Fail::from("too many packets"));
    }
    let middlebox = read(alloc, source.as_bytes())?;
    let flat = flatten(alloc, &middlebox)?;
    job_of(alloc, flat, packets)
}
