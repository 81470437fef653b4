//! Printing a capture.
ghost use Rattle.std.specs.Prelude.{◌≡◌, ◌≤◌, ◌<◌, ◌^◌, ◌++◌, length, IfOk, OnOk};
ghost use Rattle.packet_fields.specs.Sizes.{largest_packet};
ghost use Rattle.pcap_trace.specs.Format.{IsPcap, pcap_bytes, record_bytes};

use crate::header::Header;
use crate::pcap::Pcap;
use crate::records::{Record, RecordHeader};
use gal_io::{Bytes, NoMemory};
use std::alloc::Global;

// Puts a record at the end.
fn put_record(big: bool, item: &Record, text: &mut Bytes) -> Result<(), NoMemory>
    requires { length item.now.bytes ≤ largest_packet }
    ensures { OnOk result (text.new ≡ text.old ++ record_bytes big item.now) }
{
    let header = RecordHeader {
        seconds: item.seconds,
        fraction: item.fraction,
        captured: item.bytes.len() as u32,
        original: item.original,
    };
    header.put(big, text)?;
    text.extend(item.bytes.as_slice())?;
    Ok(())
}

// Numbers of a header have 32 bits. This does nothing.
fn numbers_fit(zone: u32, sigfigs: u32, snaplen: u32)
    ensures zone { zone < 2 ^ 32 }
    ensures sigfigs { sigfigs < 2 ^ 32 }
    ensures snaplen { snaplen < 2 ^ 32 }
{}

/// The bytes of a capture. They are read as the same capture, since each value is one that `read_pcap` takes.
pub fn print_pcap(alloc: Global, p: &Pcap) -> Result<Bytes, NoMemory>
    ensures text { IfOk result (λ text. text ≡ pcap_bytes p.now) }
    ensures taken { IsPcap p.now }
{
    let items = p.records.as_slice();
    numbers_fit(p.zone, p.sigfigs, p.snaplen);
    let header = Header {
        big: p.big,
        nano: p.nano,
        zone: p.zone,
        sigfigs: p.sigfigs,
        snaplen: p.snaplen,
    };
    let mut text = Bytes::new(alloc);
    header.put(&mut text)?;
    for item in items {
        put_record(p.big, item, &mut text)?;
    }
    Ok(text)
}
