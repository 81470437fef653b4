//! The tokens of a source, and how many of its brackets are open at once.
#![tactic(auto)]

mod brackets;
mod lexeme;
mod number;
mod scan;
mod token;
mod tokenizer;

pub use brackets::depth;
pub use lexer::{Span, TokenError};
pub use token::{Placed, Token};
pub use tokenizer::tokens;
