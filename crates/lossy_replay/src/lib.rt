//! The replay of a schedule over links that lose, repeat and reorder what is sent on them.
#![tactic(auto)]

mod allowing;
mod line;
mod links;
mod perform;
mod run;
mod way;

pub use perform::replay_lossy;
pub use run::{Ends, LossyRun, Tally4};
