//! The header of a capture.
ghost use Rattle.std.specs.Prelude.{◌≡◌, ◌↔◌, ◌++◌, Bool, IsTrue, IfNone, IfSome, IfOk, IfErr, OnOk};
ghost use Rattle.pcap_trace.specs.Format.{front, header, magic};
ghost use Rattle.pcap_trace.specs.Header.{IsHeader, capture_of};
ghost use Rattle.pcap_trace.specs.Refused.{Begins, IsRefused};

use crate::number::{u16_bytes, u32_at, u32_bytes};
use crate::pcap::Pcap;
use crate::records::Records;
use crate::refusal::PcapError;
use gal_io::{Bytes, NoMemory};

// How many bytes a header has.
pub(crate) const HEADER_BYTES: usize = 24;

// The number in front of a capture whose times have microseconds.
const MICROSECONDS: u32 = 0xa1b2_c3d4;
// The number in front of a capture whose times have nanoseconds.
const NANOSECONDS: u32 = 0xa1b2_3c4d;
// The version of the format.
const MAJOR: u16 = 2;

const MINOR: u16 = 4;
// The link type of Ethernet.
const ETHERNET: u32 = 1;

fn magic(nano: bool) -> u32
    ensures { result ≡ magic nano }
{
    if nano { NANOSECONDS } else { MICROSECONDS }
}

// The first bytes of a capture, up to its version.
fn front(big: bool, nano: bool) -> [u8; 8]
    ensures { result ≡ front big nano }
{
    let [a, b, c, d] = u32_bytes(big, magic(nano));
    let [e, f] = u16_bytes(big, MAJOR);
    let [g, h] = u16_bytes(big, MINOR);
    [a, b, c, d, e, f, g, h]
}

// Whether the bytes begin with the header of a capture of this order and unit.
fn begins(bytes: &[u8], big: bool, nano: bool) -> bool
    ensures { IsTrue result ↔ Begins bytes.now big nano }
{
    bytes.len() >= HEADER_BYTES && &bytes[..8] == front(big, nano).as_slice()
}

// The unit of the capture of this order whose header the bytes begin with.
fn unit_in(bytes: &[u8], big: bool) -> Option<bool>
    ensures found { IfSome result (λ nano. Begins bytes.now big nano) }
    ensures none { IfNone result ((nano : Bool) → Begins bytes.now big nano → ⊥) }
{
    if begins(bytes, big, true) {
        return Some(true);
    }
    if begins(bytes, big, false) {
        return Some(false);
    }
    None
}

// The order and the unit of the capture whose header the bytes begin with.
fn order_and_unit(bytes: &[u8]) -> Option<(bool, bool)>
    ensures found { IfSome result (λ kind. Begins bytes.now kind.0 kind.1) }
    ensures none { IfNone result ((big nano : Bool) → Begins bytes.now big nano → ⊥) }
{
    if let Some(nano) = unit_in(bytes, true) {
        return Some((true, nano));
    }
    if let Some(nano) = unit_in(bytes, false) {
        return Some((false, nano));
    }
    None
}

// What a header tells.
#[derive(Clone, Copy)]
pub(crate) struct Header {
    pub big: bool,
    pub nano: bool,
    pub zone: u32,
    pub sigfigs: u32,
    pub snaplen: u32,
}

impl Header {
    // The header that the bytes begin with.
    pub fn of(bytes: &[u8]) -> Result<Header, PcapError>
        ensures ok { IfOk result (IsHeader bytes.now) }
        ensures err { IfErr result (IsRefused bytes.now) }
    {
        let Some((big, nano)) = order_and_unit(bytes) else {
            return Err(PcapError::Header);
        };
        if u32_at(big, bytes, 20) != ETHERNET {
            return Err(PcapError::Link);
        }
        Ok(Header {
            big,
            nano,
            zone: u32_at(big, bytes, 8),
            sigfigs: u32_at(big, bytes, 12),
            snaplen: u32_at(big, bytes, 16),
        })
    }

    // The capture of this header and these records.
    pub fn with(self, records: Records) -> Pcap
        ensures { result ≡ capture_of self records }
    {
        Pcap {
            big: self.big,
            nano: self.nano,
            zone: self.zone,
            sigfigs: self.sigfigs,
            snaplen: self.snaplen,
            records,
        }
    }

    // Puts the bytes of the header at the end.
    pub fn put(&self, text: &mut Bytes) -> Result<(), NoMemory>
        ensures { OnOk result (text.new ≡ text.old
            ++ header self.now.big self.now.nano self.now.zone self.now.sigfigs self.now.snaplen) }
    {
        text.extend(&front(self.big, self.nano))?;
        text.extend(&u32_bytes(self.big, self.zone))?;
        text.extend(&u32_bytes(self.big, self.sigfigs))?;
        text.extend(&u32_bytes(self.big, self.snaplen))?;
        text.extend(&u32_bytes(self.big, ETHERNET))?;
        Ok(())
    }
}
