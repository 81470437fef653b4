//! Middleboxes as syntax trees: how a source spells one, and what it does to a packet.
#![tactic(auto)]

mod broken;
mod copy;
mod mark;
mod sizes;
mod tree;

pub use broken::Broken;
pub use mark::Mark;
pub use sizes::{MAX_DEPTH, MAX_ENTRIES, MAX_OBJECTS, MAX_ROWS, MAX_WRITES, What, is_size};
pub use tree::{Body, Expr, Local, Locals, Middlebox, Stmt};
