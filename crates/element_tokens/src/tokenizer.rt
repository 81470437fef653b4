//! The tokens of a source.
ghost use Rattle.std.specs.Prelude.{◌≡◌, ℕ, List, map, IfOk, IfErr};
ghost use Rattle.lexer.specs.TokenError.{IsTokenError};
ghost use Rattle.element_lang.specs.Token as lang;
ghost use Rattle.element_tokens.specs.Tokens.{placed_of};

use crate::token::Placed;
use lexer::TokenError;
use std::alloc::Global;

/// The tokens of a text, or the first place where none starts.
pub fn tokens(alloc: Global, text: &[u8]) -> Result<Vec<Placed>, TokenError>
    ensures ok { IfOk result (λ found.
        lang.AreTokens text.now (map (placed_of text.now) found.items)) }
    ensures only { IfOk result (λ found. (others : List lang.Placed)
        → lang.AreTokens text.now others → others ≡ map (placed_of text.now) found.items) }
    ensures whole { IfOk result (λ _. (offset : ℕ) → lang.IsNoToken text.now offset → ⊥) }
    ensures err { IfErr result (λ e. IsTokenError lang.lexeme text.now e) }
{
    lexer::tokens(alloc, text)
}
