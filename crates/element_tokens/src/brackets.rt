//! How many brackets are open at once.
ghost use Rattle.std.specs.Prelude.{◌≡◌, ◌<◌};
ghost use Rattle.element_lang.specs.Accepted.{open_after, deepest};
ghost use Rattle.element_tokens.specs.Tokens.{token_of, tokens_of};

use crate::token::{Placed, Token};
use element_lang::Mark;

// How many brackets are open behind a token, where so many were open before it.
fn open_behind(text: &[u8], token: Token, before: usize) -> usize
    requires { before < usize.MAX }
    ensures { result ≡ open_after (token_of text.now token) before }
{
    match token {
        Token::Fixed(Mark::LeftParen | Mark::LeftBracket | Mark::LeftBrace) => before + 1,
        Token::Fixed(Mark::RightParen | Mark::RightBracket | Mark::RightBrace) => {
            before.saturating_sub(1)
        }
        _ => before,
    }
}

/// The most brackets, of any kind, that are open at once.
pub fn depth(text: &[u8], tokens: &[Placed]) -> usize
    ensures { result ≡ deepest 0 (tokens_of text.now tokens.now) }
{
    let mut current = 0;
    let mut most: usize = 0;
    for placed in tokens {
        current = open_behind(text, placed.token, current);
        most = most.max(current);
    }
    most
}
