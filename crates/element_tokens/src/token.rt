//! The tokens of a source, without the text that they lie in.

use element_lang::Mark;
use lexer::Span;
use packet_fields::Field;

/// A token.
#[derive(Clone, Copy)]
pub enum Token {
    /// A keyword or a symbol.
    Fixed(Mark),
    Number(u64),
    Name(Span),
    Field(Field),
}

/// A token and the offset of its first byte in the text.
pub type Placed = lexer::Placed<Token>;
