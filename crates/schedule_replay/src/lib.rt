//! The replay of a schedule over a switch that is called through its port: whole, or call by call.
#![tactic(auto)]

mod perform;
mod replayer;

pub use perform::replay;
pub use replay_contracts::{Job, ReplayError, Replayed, Stepped};
pub use replayer::{Refused, Replayer};
