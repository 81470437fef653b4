//! Why the text of a report is refused.
ghost use Rattle.std.specs.Prelude.{◌≡◌};

use gal_io::NoMemory;
use thiserror::Error;

/// Why a text is no report.
#[derive(Clone, Copy, Debug, PartialEq, Eq, Error)]
pub enum RunTextError {
    /// The first line such that no report begins with the lines up to it, or the number of lines and one more, where
    /// the text ends too early. Lines count from 1, skipped ones too.
    #[error("line {0} is refused")]
    Line(usize),
    /// No memory was found.
    #[error("no memory")]
    NoMemory,
}

impl From<NoMemory> for RunTextError {
    ghost use Rattle.report_text.specs.declared.error.RunTextError.{RunTextError};

    ghost from_gives = { λ _ e. e ≡ RunTextError.NoMemory };

    fn from(_: NoMemory) -> RunTextError {
        RunTextError::NoMemory
    }
}
