//! From the syntax tree of a middlebox to its flat program.
#![tactic(auto)]

mod entry;
mod error;
mod frame;
mod journal;
mod merge;
mod occurs;
mod output;
mod place;
mod program;
mod sides;
mod sizes;
mod state;
mod statement;
mod stretch;
mod value;

pub use error::FlatError;
pub use program::flatten;
pub use sizes::MAX_INSTRUCTIONS;
