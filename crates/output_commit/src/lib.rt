//! Outputs that wait until the switch is known to see the changes that they came with, and the commands that carry
//! these changes.
#![tactic(auto)]

mod batches;
mod commit;
mod output;
mod place;
mod span;
mod tally;

pub use commit::Commit;
pub use output::{Output, Release};
