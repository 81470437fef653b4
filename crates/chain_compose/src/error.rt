//! Why a chain isn't composed.

use std::alloc::AllocFailed;

/// What there is too much of in a composed middlebox.
#[derive(Clone, Copy, PartialEq, Eq)]
pub enum What {
    /// Declared objects.
    Objects,
    /// Rows of tables, capacities of maps and lengths of vectors together.
    Entries,
    /// Statements that store or remove a row, one in a repeat counted as often as it runs.
    Writes,
    /// Brackets of its text that are open at once.
    Depth,
    /// Bytes of its text.
    Bytes,
}

/// Why a chain isn't composed. Of several reasons the first one in this order is told.
#[derive(Clone, Copy, PartialEq, Eq)]
pub enum ComposeError {
    /// The element of this number isn't the entry, and reads bytes of the packet as it arrived.
    Byte(u32),
    /// The element of this number has a `repeat`, and stands behind a `send` within one.
    Repeat(u32),
    /// The composed middlebox has more than 65,536 statements, those within others counted.
    Statements,
    /// The composed middlebox, or its text, has so much of something, and no more than `allowed` of it may be.
    TooLarge { what: What, have: u64, allowed: u64 },
    NoMemory,
}

impl<T: Drop> From<AllocFailed<T>> for ComposeError {
    ghost use Rattle.std.specs.Prelude.{◌≡◌};
    ghost use Rattle.chain_compose.specs.declared.error.ComposeError.TheVariants.{NoMemory};

    ghost from_gives = { λ _ e. e ≡ NoMemory };

    fn from(_: AllocFailed<T>) -> ComposeError {
        ComposeError::NoMemory
    }
}

impl From<gal_io::NoMemory> for ComposeError {
    ghost use Rattle.std.specs.Prelude.{◌≡◌};
    ghost use Rattle.chain_compose.specs.declared.error.ComposeError.TheVariants.{NoMemory};

    ghost from_gives = { λ _ e. e ≡ NoMemory };

    fn from(_: gal_io::NoMemory) -> ComposeError {
        ComposeError::NoMemory
    }
}
