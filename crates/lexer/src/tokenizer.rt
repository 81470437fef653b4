//! The tokens of a text.
ghost use Rattle.std.specs.Prelude.{◌≡◌, ℕ, List, map, IfOk, IfErr};
ghost use Rattle.lexer.specs.declared.token.Placed as declared;
ghost use Rattle.lexer.specs.Tokens.{placed_of, AreTokens, IsNoToken};
ghost use Rattle.lexer.specs.TokenError.{IsTokenError};

use crate::lexical::Lexical;
use crate::scan::past_gap;
use crate::token::Placed;
use std::alloc::{AllocFailed, Global};

/// Why a text has no list of tokens.
#[derive(Clone, Copy, PartialEq, Eq)]
pub enum TokenError {
    /// No token starts at this offset of the text.
    NoToken(usize),
    NoMemory,
}

impl<T: Drop> From<AllocFailed<T>> for TokenError {
    ghost use Rattle.std.specs.Prelude.{◌≡◌};
    ghost use Rattle.lexer.specs.declared.tokenizer.TokenError.TheVariants.{NoMemory};

    ghost from_gives = { λ _ e. e ≡ NoMemory };

    fn from(_: AllocFailed<T>) -> TokenError {
        TokenError::NoMemory
    }
}

/// The tokens of a text, or the first place where none starts.
#[tactic(auto, using(crate::proofs::FoundTokens::found_tokens))]
pub fn tokens<T: Lexical>(alloc: Global, text: &[u8]) -> Result<Vec<Placed<T>>, TokenError>
    ensures ok { IfOk result (λ found.
        AreTokens T.lexeme text.now (map (placed_of T.meaning text.now) found.items)) }
    ensures only { IfOk result (λ found. (others : List (declared.Placed T.Meaning))
        → AreTokens T.lexeme text.now others → others ≡ map (placed_of T.meaning text.now) found.items) }
    ensures whole { IfOk result (λ _. (offset : ℕ) → IsNoToken T.lexeme text.now offset → ⊥) }
    ensures err { IfErr result (λ e. IsTokenError T.lexeme text.now e) }
{
    let mut found = Vec::new(alloc);
    let mut offset: usize = 0;
    'each: loop {
        let start = past_gap(text, offset);
        if start == text.len() {
            return Ok(found);
        }
        let Some(lexeme) = T::lexeme_at(text, start) else {
            return Err(TokenError::NoToken(start));
        };
        found.push(Placed {
            token: lexeme.token,
            offset: start,
        })?;
        offset = start + lexeme.len;
    }
}
