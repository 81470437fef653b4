//! Why the text of a trace or a schedule is refused.
ghost use Rattle.std.specs.Prelude.{◌≡◌};

use gal_io::NoMemory;
use std::alloc::AllocFailed;
use thiserror::Error;

/// The most packets of a trace.
pub const MAX_PACKETS: usize = 16_384;

/// The most events of a schedule.
pub const MAX_EVENTS: usize = 1_048_576;

/// What is wrong with a line: the first of these that holds.
#[derive(Clone, Copy, Debug, PartialEq, Eq)]
pub enum LineKind {
    /// The line hasn't the parts of one.
    Form,
    /// The number isn't a decimal in range.
    Number,
    /// The body isn't `-` or pairs of hexadecimal digits.
    Hex,
    /// The packet has more than 9,216 bytes.
    Long,
    /// A line `drain` stood before it.
    AfterDrain,
}

/// Why a text of lines is refused.
#[derive(Clone, Copy, Debug, PartialEq, Eq, Error)]
pub enum LinesError {
    /// The first line that is outside the grammar. Lines count from 1, skipped ones too.
    #[error("line {number} is refused")]
    Line { number: usize, kind: LineKind },
    /// All lines are in the grammar, and there are too many values.
    #[error("have {have}, allowed {allowed}")]
    TooMany { have: usize, allowed: usize },
    /// No memory was found.
    #[error("no memory")]
    NoMemory,
}

impl From<NoMemory> for LinesError {
    ghost use Rattle.run_text.specs.declared.refusal.LinesError.{LinesError};

    ghost from_gives = { λ _ e. e ≡ LinesError.NoMemory };

    fn from(_: NoMemory) -> LinesError {
        LinesError::NoMemory
    }
}

impl<T: Drop> From<AllocFailed<T>> for LinesError {
    ghost use Rattle.run_text.specs.declared.refusal.LinesError.{LinesError};

    ghost from_gives = { λ _ e. e ≡ LinesError.NoMemory };

    fn from(_: AllocFailed<T>) -> LinesError {
        LinesError::NoMemory
    }
}
