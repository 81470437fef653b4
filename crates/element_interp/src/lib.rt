//! What a middlebox does to packets, run on its tree.
#![tactic(auto)]

mod fields;
mod frame;
mod interp;
mod serial;
mod value;

pub use interp::run;
pub use serial::{SerialRun, run_all};
