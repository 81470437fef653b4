//! The tokens of a chain's text, without the text that they lie in.

use crate::mark::Mark;
use lexer::Span;

/// A token.
#[derive(Clone, Copy)]
pub enum Token {
    Name(Span),
    /// The number of an output or an input.
    Number(u8),
    Fixed(Mark),
}

/// A token and the offset of its first byte in the text.
pub type Placed = lexer::Placed<Token>;
