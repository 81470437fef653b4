//! The tokens of a text, without the text that they lie in.

/// Where some bytes lie in the text.
#[derive(Clone, Copy)]
pub struct Span {
    pub offset: usize,
    pub len: usize,
}

/// A token, and how many bytes it takes.
#[derive(Clone, Copy)]
pub struct Lexeme<T> {
    pub token: T,
    pub len: usize,
}

/// A token and the offset of its first byte in the text.
#[derive(Clone, Copy)]
pub struct Placed<T> {
    pub token: T,
    pub offset: usize,
}
