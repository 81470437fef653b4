//! The rules of sources: which one a source breaks first, and where. Also how much a middlebox holds, and how often it
//! writes.
#![tactic(auto)]

mod blocks;
mod declarations;
mod ends;
mod expressions;
mod names;
mod objects;
mod rows;
mod sizes;
mod source;
mod statements;
mod widths;

pub use names::{word_at, word_of};
pub use sizes::{entries, writes};
pub use source::first_broken;
