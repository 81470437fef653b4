//! What a replay keeps from event to event, what it shows of the state, and what each event does to it over a switch.
#![tactic(auto)]

mod course;
mod driving;
mod fates;
mod pass_queue;
mod passes;
mod report;
mod serving;
mod start;
mod step;

pub use course::Course;
pub use pass_queue::PassQueue;
