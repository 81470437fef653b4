//! Why there is no flat program.

use gal_io::NoMemory as Want;
use std::alloc::{AllocError, AllocFailed};
use thiserror::Error;

/// Why a middlebox has no flat program.
#[derive(Clone, Copy, Debug, PartialEq, Eq, Error)]
pub enum FlatError {
    /// The flat program would have more than 4,096 instructions.
    #[error("more than 4096 instructions")]
    TooLarge,
    /// No memory was found.
    #[error("no memory")]
    NoMemory,
}

impl<T: Drop> From<AllocFailed<T>> for FlatError {
    ghost use Rattle.std.specs.Prelude.{◌≡◌};
    ghost use Rattle.flatten.specs.declared.error.FlatError.TheVariants.{NoMemory};

    ghost from_gives = { λ _ e. e ≡ NoMemory };

    fn from(_: AllocFailed<T>) -> Self {
        FlatError::NoMemory
    }
}

impl From<Want> for FlatError {
    ghost use Rattle.std.specs.Prelude.{◌≡◌};
    ghost use Rattle.flatten.specs.declared.error.FlatError.TheVariants.{NoMemory};

    ghost from_gives = { λ _ e. e ≡ NoMemory };

    fn from(_: Want) -> Self {
        FlatError::NoMemory
    }
}

impl From<AllocError> for FlatError {
    ghost use Rattle.std.specs.Prelude.{◌≡◌};
    ghost use Rattle.flatten.specs.declared.error.FlatError.TheVariants.{NoMemory};

    ghost from_gives = { λ _ e. e ≡ NoMemory };

    fn from(_: AllocError) -> Self {
        FlatError::NoMemory
    }
}
