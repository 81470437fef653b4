//! The records of a capture.
ghost use Rattle.std.specs.Prelude.{◌≡◌, ◌+◌, ◌≤◌, ◌↔◌, ◌++◌, [], drop, length, take, IsTrue, OnOk};
ghost use Rattle.pcap_trace.specs.Format.{record_header};
ghost use Rattle.pcap_trace.specs.Reading.{HasFields};
ghost use Rattle.pcap_trace.specs.Records.{AreRecords};

use crate::number::{u32_at, u32_bytes};
use gal_io::{Bytes, NoMemory};
use std::alloc::Global;
use std::marker::Model;

/// The most records of a capture.
pub const MAX_RECORDS: usize = 16_384;

/// A captured packet.
#[derive(Drop)]
pub struct Record {
    /// When it was captured, in whole seconds since 1970.
    pub seconds: u32,
    /// The rest of that time, in the unit of the capture.
    pub fraction: u32,
    /// How many bytes the packet had. This is more than the bytes that are there where the capture was cut.
    pub original: u32,
    /// The bytes that were captured, at most 9,216.
    pub bytes: Bytes,
}

/// The records of a capture, in their order: at most 16,384.
#[derive(Drop)]
pub struct Records {
    items: Vec<Record>,
}

impl Model for Records {
    ghost use Rattle.std.specs.Prelude.{List};
    ghost use Rattle.pcap_trace.specs.declared.records.Record.{Record};
    ghost use Rattle.pcap_trace.specs.Records.{AreRecords};

    ghost Value = { List Record };

    ghost view = { λ records. records.items.items };

    ghost invariant = { λ records. AreRecords records.items.items };
}

impl Records {
    /// No records. This takes no memory.
    pub fn new(alloc: Global) -> Records
        ensures { result ≡ [] }
    {
        Records {
            items: Vec::new(alloc),
        }
    }

    /// The list of these records.
    pub fn of(items: Vec<Record>) -> Records
        requires { AreRecords items.items }
        ensures { result ≡ items.items }
    {
        Records { items }
    }

    pub fn as_slice(&self) -> &[Record]
        ensures value { result.now ≡ self.now }
        ensures records { AreRecords self.now }
    {
        self.items.as_slice()
    }

    pub fn len(&self) -> usize
        ensures { result ≡ length self.now }
    {
        self.items.len()
    }

    pub fn is_empty(&self) -> bool
        ensures { IsTrue result ↔ (self.now ≡ []) }
    {
        self.items.is_empty()
    }
}

// What stands in front of a record's bytes.
#[derive(Clone, Copy)]
pub(crate) struct RecordHeader {
    pub seconds: u32,
    pub fraction: u32,
    // How many bytes were captured.
    pub captured: u32,
    pub original: u32,
}

// How many bytes that are.
pub(crate) const RECORD_HEADER_BYTES: usize = 16;

impl RecordHeader {
    // The header in the bytes from `at` on.
    pub fn at(big: bool, bytes: &[u8], at: usize) -> RecordHeader
        requires { at + 16 ≤ length bytes.now }
        ensures text { record_header big result.seconds result.fraction result.captured result.original
            ≡ take 16 (drop at bytes.now) }
        ensures fits { HasFields result }
    {
        RecordHeader {
            seconds: u32_at(big, bytes, at),
            fraction: u32_at(big, bytes, at + 4),
            captured: u32_at(big, bytes, at + 8),
            original: u32_at(big, bytes, at + 12),
        }
    }

    // Puts the bytes of the header at the end.
    pub fn put(&self, big: bool, text: &mut Bytes) -> Result<(), NoMemory>
        ensures { OnOk result (text.new ≡ text.old
            ++ record_header big self.now.seconds self.now.fraction self.now.captured self.now.original) }
    {
        text.extend(&u32_bytes(big, self.seconds))?;
        text.extend(&u32_bytes(big, self.fraction))?;
        text.extend(&u32_bytes(big, self.captured))?;
        text.extend(&u32_bytes(big, self.original))?;
        Ok(())
    }
}
