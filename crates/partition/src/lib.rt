//! Which split a program gets: the greatest one, or by shrinking the first of a list that keeps the limits.
#![tactic(auto)]

mod basis;
mod choosing;
mod front;
mod greatest;
mod trying;

pub use choosing::{PartitionError, partition};
pub use greatest::{all_on_server, greatest_split};
