//! Why a text is not read.
ghost use Rattle.std.specs.Prelude.{◌≡◌};
ghost use Rattle.element_text.specs.declared.error.TextError.TheVariants.{NotUtf8, NoMemory};

use element_lang::What;
use element_tokens::TokenError;
use std::alloc::AllocFailed;
use std::str::Utf8Error;
use thiserror::Error;

/// Why there is no middlebox for a text. An offset counts bytes from the start of the text.
#[derive(Clone, Copy, Debug, PartialEq, Eq, Error)]
pub enum TextError {
    /// The text is no UTF-8. Its longest beginning that is has so many bytes.
    #[error("no UTF-8 from byte {0} on")]
    NotUtf8(usize),
    /// No token starts at this offset.
    #[error("no token at byte {0}")]
    Token(usize),
    /// There is more of something than may be. Both numbers count what it is, as brackets or objects.
    #[error("{what:?}: have {have}, allowed {allowed}")]
    TooLarge { what: What, have: u64, allowed: u64 },
    /// No source begins with the tokens up to the one at this offset. At the length of the text, tokens are missing.
    #[error("wrong syntax at byte {0}")]
    Syntax(usize),
    /// Of the declarations and statements that break a rule, the first begins at this offset. The rule, from 1 to 14,
    /// is the lowest that it breaks.
    #[error("rule {rule} is broken at byte {offset}")]
    Rule { rule: u8, offset: usize },
    /// No memory was found.
    #[error("no memory")]
    NoMemory,
}

impl<T: Drop> From<AllocFailed<T>> for TextError {
    ghost from_gives = { λ _ e. e ≡ NoMemory };

    fn from(_: AllocFailed<T>) -> Self {
        TextError::NoMemory
    }
}

impl From<Utf8Error> for TextError {
    ghost use Rattle.std.specs.Str.{valid_up_to};

    ghost from_gives = { λ u e. e ≡ NotUtf8 (valid_up_to u) };

    fn from(error: Utf8Error) -> Self {
        TextError::NotUtf8(error.valid_up_to())
    }
}

impl From<TokenError> for TextError {
    ghost use Rattle.element_text.specs.Errors.{token_error};

    ghost from_gives = { λ t e. e ≡ token_error t };

    fn from(error: TokenError) -> Self {
        match error {
            TokenError::NoToken(offset) => TextError::Token(offset),
            TokenError::NoMemory => TextError::NoMemory,
        }
    }
}

impl From<gal_io::NoMemory> for TextError {
    ghost from_gives = { λ _ e. e ≡ NoMemory };

    fn from(_: gal_io::NoMemory) -> Self {
        TextError::NoMemory
    }
}
