//! Reading a capture.
ghost use Rattle.std.specs.Prelude.{◌≡◌, ◌≢◌, ◌⊎◌, ◌<◌, ◌≤◌, ◌++◌, ◌∷◌, [], length, take, drop};
ghost use Rattle.std.specs.Prelude.{IfOk, IfErr, OnOk, MatchResult};
ghost use Rattle.pcap_trace.specs.declared.pcap.Pcap.{Pcap};
ghost use Rattle.pcap_trace.specs.declared.refusal.PcapError.{PcapError};
ghost use Rattle.pcap_trace.specs.Format.{IsPcap, pcap_bytes};
ghost use Rattle.pcap_trace.specs.Header.{IsHeader, capture_of};
ghost use Rattle.pcap_trace.specs.Reading.{IsStop, IsWhole, record_with};
ghost use Rattle.pcap_trace.specs.Records.{most_records};
ghost use Rattle.pcap_trace.specs.Refused.{IsRefused};

use crate::header::{HEADER_BYTES, Header};
use crate::pcap::Pcap;
use crate::records::{MAX_RECORDS, RECORD_HEADER_BYTES, Record, RecordHeader, Records};
use crate::refusal::PcapError;
use gal_io::{Bytes, NoMemory};
use packet_fields::MAX_PACKET_BYTES;
use std::alloc::Global;

// The header of the record that begins at this byte, where the record is whole.
fn header_at(big: bool, bytes: &[u8], at: usize) -> Result<RecordHeader, PcapError>
    requires { at < length bytes.now }
    ensures ok { IfOk result (IsWhole big (drop at bytes.now)) }
    ensures err { IfErr result (IsStop big (drop at bytes.now) at) }
{
    let left = bytes.len() - at;
    if left < RECORD_HEADER_BYTES {
        return Err(PcapError::Record(at));
    }
    let header = RecordHeader::at(big, bytes, at);
    let captured = header.captured as usize;
    if captured > MAX_PACKET_BYTES {
        return Err(PcapError::Long(at));
    }
    if left < RECORD_HEADER_BYTES + captured {
        return Err(PcapError::Record(at));
    }
    Ok(header)
}

// Puts a record last where there is room for one more.
fn keep(
    alloc: Global,
    records: &mut Vec<Record>,
    header: RecordHeader,
    bytes: &[u8],
) -> Result<(), NoMemory>
    requires { length records.old.items ≤ most_records }
    ensures { OnOk result
        (records.new.items ≡ take most_records (records.old.items ++ record_with header bytes.now ∷ [])) }
{
    if records.len() < MAX_RECORDS {
        let bytes = Bytes::from_slice(alloc, bytes)?;
        records.push(Record {
            seconds: header.seconds,
            fraction: header.fraction,
            original: header.original,
            bytes,
        })?;
    }
    Ok(())
}

// The records behind the header.
fn records_behind(alloc: Global, header: Header, bytes: &[u8]) -> Result<Records, PcapError>
    requires { IsHeader bytes.now header }
    ensures ok { IfOk result (λ records. pcap_bytes (capture_of header records) ≡ bytes.now) }
    ensures taken { IfOk result (λ records. IsPcap (capture_of header records)) }
    ensures err { IfErr result (IsRefused bytes.now) }
{
    let mut records = Vec::new(alloc);
    let mut count: usize = 0;
    let mut at = HEADER_BYTES;
    while at < bytes.len() {
        let found = header_at(header.big, bytes, at)?;
        let start = at + RECORD_HEADER_BYTES;
        let end = start + found.captured as usize;
        keep(alloc, &mut records, found, &bytes[start..end])?;
        count += 1;
        at = end;
    }
    if count > MAX_RECORDS {
        return Err(PcapError::TooMany(count));
    }
    Ok(Records::of(records))
}

// The capture, or the cause of a refusal. That there is one answer is said by `read_pcap`.
fn read(alloc: Global, bytes: &[u8]) -> Result<Pcap, PcapError>
    ensures ok { IfOk result (λ p. pcap_bytes p ≡ bytes.now) }
    ensures taken { IfOk result IsPcap }
    ensures refused { IfErr result (IsRefused bytes.now) }
{
    let header = Header::of(bytes)?;
    let records = records_behind(alloc, header, bytes)?;
    Ok(header.with(records))
}

/// The capture that the bytes are. A record whose packet had more bytes than were captured is taken as it stands, and
/// the snap length limits nothing.
pub fn read_pcap(alloc: Global, bytes: &[u8]) -> Result<Pcap, PcapError>
    // What is read is a capture, whose bytes these are.
    ensures ok { IfOk result (λ p. pcap_bytes p ≡ bytes.now) }
    ensures taken { IfOk result IsPcap }

    // The bytes of a capture are read, and of no other.
    ensures found { (p : Pcap) → IsPcap p → pcap_bytes p ≡ bytes.now
        → MatchResult result (λ found. found ≡ p) (λ e. e ≡ PcapError.NoMemory) }

    // A refusal has its cause, and a cause its refusal.
    ensures refused { IfErr result (IsRefused bytes.now) }
    ensures exact { (e : PcapError) → e ≢ PcapError.NoMemory → IsRefused bytes.now e
        → MatchResult result (λ _. ⊥) (λ found. (found ≡ e) ⊎ (found ≡ PcapError.NoMemory)) }
{
    read(alloc, bytes)
}
