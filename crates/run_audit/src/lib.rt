//! An audit of one report: whether it tells a serial run of its source, found from the source and the trace alone.
#![tactic(auto)]

mod counts;
mod error;
mod objects;
mod order;
mod times;
mod verdicts;
mod whole;

pub use error::AuditError;
pub use whole::audit;
