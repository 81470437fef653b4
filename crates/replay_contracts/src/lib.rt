//! What a replay over a switch promises, and how it goes on: the contracts of a replayer, over one state. Beside its
//! types there is nothing to run here: the definitions stand in `specs`, and the laws in `proofs/Laws`.
#![tactic(auto)]

mod job;

pub use job::{Job, ReplayError, Replayed, Stepped};
