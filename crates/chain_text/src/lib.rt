//! The reader of chains: tokens, then statements, then elements and wires.
#![tactic(auto)]

mod builder;
mod error;
mod grammar;
mod lexeme;
mod mark;
mod reach;
mod reader;
mod shape;
mod statement;
mod token;
mod tokenizer;

pub use error::ChainTextError;
pub use mark::Mark;
pub use reader::read_chain;
pub use token::{Placed, Token};
pub use tokenizer::tokens;
