//! The limits, the keys of their file, and why a file is refused.
ghost use Rattle.std.specs.Prelude.{◌≡◌, pos};
ghost use Rattle.resource_limits.specs.Limits.{name_of, lowest, highest};

use thiserror::Error;

/// A key of the limits file.
#[derive(Clone, Copy, Debug, PartialEq, Eq)]
pub enum Key {
    /// Bits of all tables on the switch.
    TableBits,
    /// The highest stage of either pass.
    Stages,
    /// Rows of each write-back table.
    Writeback,
    /// Bytes of the header in each direction.
    TransferBytes,
}

impl Key {
    /// How the file spells the key.
    pub fn name(self) -> &'static str
        ensures { result.now ≡ name_of self }
    {
        match self {
            Key::TableBits => "table_bits",
            Key::Stages => "stages",
            Key::Writeback => "writeback",
            Key::TransferBytes => "transfer_bytes",
        }
    }

    /// The least number that the key takes.
    pub fn lowest(self) -> i64
        ensures { result ≡ pos (lowest self) }
    {
        match self {
            Key::TableBits | Key::Stages | Key::Writeback => 0,
            Key::TransferBytes => 2,
        }
    }

    /// The greatest number that the key takes.
    pub fn highest(self) -> i64
        ensures { result ≡ pos (highest self) }
    {
        match self {
            Key::TableBits => 1_000_000_000_000,
            Key::Stages => 4_096,
            Key::Writeback => 65_536,
            Key::TransferBytes => 65_535,
        }
    }
}

/// What a split may use. Each number is in the range of its key.
#[derive(Clone, Copy, PartialEq, Eq)]
pub struct Limits {
    /// Bits of all tables on the switch.
    pub table_bits: u64,
    /// The highest stage of either pass.
    pub stages: u32,
    /// Rows of each write-back table.
    pub writeback: u32,
    /// Bytes of the header in each direction.
    pub transfer_bytes: u32,
}

/// Why a limits file is refused: the first of these that holds, with no memory as the one that may come at any time.
#[derive(Clone, Copy, Debug, PartialEq, Eq, Error)]
pub enum LimitsError {
    /// The bytes are no TOML document.
    #[error("not toml")]
    Toml,
    /// The first key that the document hasn't.
    #[error("a key is missing")]
    Missing(Key),
    /// The document has a key besides the four.
    #[error("unknown key")]
    Unknown,
    /// The first key whose value isn't an integer in its range.
    #[error("a value is out of range")]
    Range(Key),
    /// No memory was found.
    #[error("no memory")]
    NoMemory,
}
