//! The packets of a trace, out of a capture and into one.
ghost use Rattle.std.specs.Prelude.{◌≡◌, ◌≤◌, length, IfOk};
ghost use Rattle.packet_fields.specs.Arrivals.{AreArrivals};
ghost use Rattle.packet_fields.specs.Sizes.{largest_packet};
ghost use Rattle.pcap_trace.specs.Packets.{packet_of, packets_of, pcap_of, records_from, whole_record};
ghost use Rattle.pcap_trace.specs.Records.{IsRecord, most_records};

use crate::pcap::Pcap;
use crate::records::{Record, Records};
use gal_io::{Bytes, NoMemory};
use packet_fields::{MAX_PACKET_BYTES, Packet, Packets};
use std::alloc::Global;

// The packet of a record.
fn packet_of(alloc: Global, item: &Record, port: u8) -> Result<Packet, NoMemory>
    ensures { IfOk result (λ packet. packet ≡ packet_of port item.now) }
{
    let bytes = item.bytes.copy(alloc)?;
    Ok(Packet { port, bytes })
}

/// The packets of a capture, each of which arrives by this port.
pub fn packets_of(alloc: Global, p: &Pcap, port: u8) -> Result<Packets, NoMemory>
    ensures packets { IfOk result (λ packets. packets ≡ packets_of p.now port) }
    ensures bounded { IfOk result (λ packets. length packets ≤ most_records) }
{
    let mut packets = Packets::new(alloc);
    for item in p.records.as_slice() {
        packets.push(packet_of(alloc, item, port)?)?;
    }
    Ok(packets)
}

// The record of a packet of these bytes that was captured at this second.
fn record_at(alloc: Global, second: u32, bytes: &[u8]) -> Result<Record, NoMemory>
    requires { length bytes.now ≤ largest_packet }
    ensures value { IfOk result (λ made. made ≡ whole_record second bytes.now) }
    ensures good { IfOk result IsRecord }
{
    Ok(Record {
        seconds: second,
        fraction: 0,
        original: bytes.len() as u32,
        bytes: Bytes::from_slice(alloc, bytes)?,
    })
}

// A record for each of these packets.
fn records_of(alloc: Global, packets: &[Packet]) -> Result<Records, NoMemory>
    requires few_records { length packets.now ≤ most_records }
    requires arrivals { AreArrivals packets.now }
    ensures { IfOk result (λ records. records ≡ records_from 0 packets.now) }
{
    let mut records = Vec::new(alloc);
    for (i, packet) in packets.iter().enumerate() {
        records.push(record_at(alloc, i as u32, packet.bytes.as_slice())?)?;
    }
    Ok(Records::of(records))
}

/// A capture of the packets of a trace, which are at most 16,384. Packet i is captured whole at second i; ports aren't
/// kept.
pub fn pcap_of(alloc: Global, packets: &Packets, big: bool, nano: bool) -> Result<Pcap, NoMemory>
    requires { length packets.now ≤ most_records }
    ensures { IfOk result (λ made. made ≡ pcap_of packets.now big nano) }
{
    let records = records_of(alloc, packets.as_slice())?;
    Ok(Pcap {
        big,
        nano,
        zone: 0,
        sigfigs: 0,
        snaplen: MAX_PACKET_BYTES as u32,
        records,
    })
}
