//! From a text to tokens, of whatever language: blanks and comments are passed, and each token has its place.
#![tactic(auto)]

mod lexical;
mod scan;
mod token;
mod tokenizer;

pub use lexical::Lexical;
pub use scan::{bytes_of, is_digit, is_letter, is_number_byte, number_len, rest_of};
pub use token::{Lexeme, Placed, Span};
pub use tokenizer::{TokenError, tokens};
