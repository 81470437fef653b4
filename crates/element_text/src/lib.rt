//! The reader of sources: tokens, then grammar, then rules.
#![tactic(auto)]

mod error;
mod expressions;
mod objects;
mod reader;
mod rules;
mod scope;

pub use error::TextError;
pub use reader::read;
