//! The report of a run, read back.
#![tactic(auto)]

mod error;
mod fate;
mod head;
mod order;
mod piece;
mod reading;
mod report;
mod row;
mod stage;

pub use error::RunTextError;
pub use report::read_run;
