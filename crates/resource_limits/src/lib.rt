//! What a split takes of the switch, and the limits that it has to keep.
#![tactic(auto)]

mod counting;
mod exceeding;
mod limits;
mod reader;
mod tally;
mod uses;

pub use counting::{Counts, count, count_by_guards};
pub use exceeding::{LimitName, Over, first_exceeded};
pub use limits::{Key, Limits, LimitsError};
pub use reader::read_limits;
pub use tally::Tally;
