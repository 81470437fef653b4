//! The table of one object on the switch, with the write-back table by which a whole batch of changes is seen at once.
#![tactic(auto)]

mod command;
mod one_object;
mod pair;
mod seen_rows;
mod write_back;

pub use command::{Applied, Command, To, Update, Updates};
pub use pair::Pair;
