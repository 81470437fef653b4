//! The tokens of a chain's text.
ghost use Rattle.std.specs.Prelude.{◌≡◌, ℕ, List, map, IfOk, IfErr};
ghost use Rattle.lexer.specs.TokenError.{IsTokenError};
ghost use Rattle.chain_text.specs.Token as chain;
ghost use Rattle.chain_text.specs.Tokens.{placed_of};

use crate::token::Placed;
use lexer::TokenError;
use std::alloc::Global;

/// The tokens of a text, or the first place where none starts.
pub fn tokens(alloc: Global, text: &[u8]) -> Result<Vec<Placed>, TokenError>
    ensures ok { IfOk result (λ found.
        chain.AreTokens text.now (map (placed_of text.now) found.items)) }
    ensures only { IfOk result (λ found. (others : List chain.Placed)
        → chain.AreTokens text.now others → others ≡ map (placed_of text.now) found.items) }
    ensures whole { IfOk result (λ _. (offset : ℕ) → chain.IsNoToken text.now offset → ⊥) }
    ensures err { IfErr result (λ e. IsTokenError chain.lexeme text.now e) }
{
    lexer::tokens(alloc, text)
}
