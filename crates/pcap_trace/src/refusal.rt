//! Why bytes are refused.
ghost use Rattle.std.specs.Prelude.{◌≡◌};

use gal_io::NoMemory;
use thiserror::Error;

/// Why bytes are no capture that is taken: the first of these causes that holds. Places count from 0.
#[derive(Clone, Copy, Debug, PartialEq, Eq, Error)]
pub enum PcapError {
    /// The bytes don't begin with the 24 bytes of a header of version 2.4, in either byte order.
    #[error("header at 0")]
    Header,
    /// The link type isn't Ethernet's.
    #[error("link at 20")]
    Link,
    /// The record that begins at this byte tells more than 9,216 captured bytes, whether they are there or not.
    #[error("long at {0}")]
    Long(usize),
    /// The record that begins at this byte lacks bytes of its header or of its packet.
    #[error("record at {0}")]
    Record(usize),
    /// All records are whole, and there are this many, which are more than 16,384.
    #[error("packets have {0}, allowed 16384")]
    TooMany(usize),
    /// No memory was found.
    #[error("no memory")]
    NoMemory,
}

impl From<NoMemory> for PcapError {
    ghost use Rattle.pcap_trace.specs.declared.refusal.PcapError.{PcapError};

    ghost from_gives = { λ _ e. e ≡ PcapError.NoMemory };

    fn from(_: NoMemory) -> PcapError {
        PcapError::NoMemory
    }
}
