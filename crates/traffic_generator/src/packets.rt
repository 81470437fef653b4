//! The packets that are made.
ghost use Rattle.std.specs.Prelude.{◌≡◌, ◌<◌, ◌≤◌, length, IfOk};
ghost use Rattle.traffic_generator.specs.Packets.{flow_of, frame_of, packet_of, packets_of};

use crate::count::Count;
use gal_io::{Bytes, NoMemory};
use packet_fields::{Field, Packet, Packets, Shape, set};
use std::alloc::Global;

// A TCP segment that opens a connection from 10.0.0.1 port 5000 to 198.51.100.7 port 80, in an Ethernet frame.
const FIRST_FRAME: [u8; 54] = [
    0x02, 0x00, 0x00, 0x00, 0x00, 0x01, 0x02, 0x00, 0x00, 0x00, 0x00, 0x02, 0x08, 0x00, 0x45, 0x00,
    0x00, 0x28, 0x00, 0x01, 0x40, 0x00, 0x40, 0x06, 0x06, 0x94, 0x0a, 0x00, 0x00, 0x01, 0xc6, 0x33,
    0x64, 0x07, 0x13, 0x88, 0x00, 0x50, 0x00, 0x00, 0x00, 0x00, 0x00, 0x00, 0x00, 0x00, 0x50, 0x02,
    0x20, 0x00, 0x47, 0xcf, 0x00, 0x00,
];

// The flow of the packet of this number.
fn flow_of(seed: u64, number: u32) -> u16
    ensures flow { result ≡ flow_of seed number }
    ensures bounded { result < 1024 }
{
    let round = (seed % 128 + u64::from(number / 16)) % 128;
    (round * 8 + u64::from(number % 8)) as u16
}

// The frame of a flow.
fn frame_of(alloc: Global, flow: u16) -> Result<Bytes, NoMemory>
    requires { flow < 1024 }
    ensures frame { IfOk result (λ bytes. bytes ≡ frame_of flow) }
    ensures size { IfOk result (λ bytes. length bytes ≡ 54) }
{
    let mut frame = FIRST_FRAME;
    let shape = Shape::of(&frame);
    set(&mut frame, &shape, Field::TcpSport, u64::from(5000 + flow));
    set(&mut frame, &shape, Field::TcpSum, u64::from(0x47cf - flow));
    Bytes::from_slice(alloc, &frame)
}

fn packet_of(alloc: Global, seed: u64, number: u32) -> Result<Packet, NoMemory>
    ensures packet { IfOk result (λ packet. packet ≡ packet_of seed number) }
    ensures size { IfOk result (λ packet. length packet.bytes ≡ 54) }
{
    let bytes = frame_of(alloc, flow_of(seed, number))?;
    Ok(Packet { port: 0, bytes })
}

/// So many packets of TCP, all from inside. A round of 16 has two packets of each of its 8 flows, 128 rounds have flows
/// of their own, and the seed tells with which of these rounds the packets begin.
pub fn packets_of(alloc: Global, seed: u64, count: Count) -> Result<Packets, NoMemory>
    ensures packets { IfOk result (λ packets. packets ≡ packets_of seed count.packets) }
    ensures number { IfOk result (λ packets. length packets ≡ count.packets) }
{
    let mut packets = Packets::new(alloc);
    for number in 0..count.packets {
        packets.push(packet_of(alloc, seed, number)?)?;
    }
    Ok(packets)
}
