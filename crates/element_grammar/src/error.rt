//! Why tokens spell no source.
ghost use Rattle.std.specs.Prelude.{◌≡◌};
ghost use Rattle.element_grammar.specs.declared.error.ParseError.TheVariants.{NoMemory};

use std::alloc::{AllocError, AllocFailed};

/// Why there is no surface tree.
#[derive(Clone, Copy, PartialEq, Eq)]
pub enum ParseError {
    /// So many tokens are left at the first wrong one, which is among them. None are left where the tokens end too
    /// early.
    Left(usize),
    /// No memory was found.
    NoMemory,
}

impl From<AllocError> for ParseError {
    ghost from_gives = { λ _ e. e ≡ NoMemory };

    fn from(_: AllocError) -> Self {
        ParseError::NoMemory
    }
}

impl<T: Drop> From<AllocFailed<T>> for ParseError {
    ghost from_gives = { λ _ e. e ≡ NoMemory };

    fn from(_: AllocFailed<T>) -> Self {
        ParseError::NoMemory
    }
}
