//! The texts of a replay: the trace of packets, the schedule of events, and the report of a run.
#![tactic(auto)]

mod answer;
mod body;
mod line_value;
mod link_schedule;
mod parts;
mod plan;
mod refusal;
mod report;
mod schedule;
mod trace;

pub use answer::print_answer;
pub use body::{Body, read_body};
pub use link_schedule::{print_link_schedule, read_link_schedule};
pub use plan::Plan;
pub use refusal::{LineKind, LinesError, MAX_EVENTS, MAX_PACKETS};
pub use report::print_run;
pub use schedule::{print_schedule, read_schedule};
pub use trace::{print_trace, read_trace};
