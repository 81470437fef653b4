//! Why a text is no chain.

use std::alloc::AllocFailed;

/// Why a text is no chain. Of several reasons the first one in this order is told. A count or a number that 32 bits
/// can't hold, which only a text of more than 4 GiB has, is told as the greatest that they can.
#[derive(Clone, Copy, PartialEq, Eq)]
pub enum ChainTextError {
    /// No token starts at this offset, which is counted in bytes; or, where all of the text is tokens, the first wrong
    /// one starts there; or it is the length of a text that ends too early.
    Syntax(usize),
    /// The number of statements that declare an element, of which there are more than 32.
    Elements(u32),
    /// The statement of this number, counted from 1, declares `out` or a name again, uses a name that isn't declared
    /// before it, or wires an output again. It is the first such.
    Statement(u32),
    /// No element is declared.
    Empty,
    /// Wires lead from an element back to it.
    Cycle,
    NoMemory,
}

impl<T: Drop> From<AllocFailed<T>> for ChainTextError {
    ghost use Rattle.std.specs.Prelude.{◌≡◌};
    ghost use Rattle.chain_text.specs.declared.error.ChainTextError.TheVariants.{NoMemory};

    ghost from_gives = { λ _ e. e ≡ NoMemory };

    fn from(_: AllocFailed<T>) -> ChainTextError {
        ChainTextError::NoMemory
    }
}

impl From<gal_io::NoMemory> for ChainTextError {
    ghost use Rattle.std.specs.Prelude.{◌≡◌};
    ghost use Rattle.chain_text.specs.declared.error.ChainTextError.TheVariants.{NoMemory};

    ghost from_gives = { λ _ e. e ≡ NoMemory };

    fn from(_: gal_io::NoMemory) -> ChainTextError {
        ChainTextError::NoMemory
    }
}
