//! The whole call of the program: it reads a middlebox and a trace, and writes what a run of it, or a replay by a
//! schedule, comes to; or reads a middlebox and limits, and writes how it is split between a switch and a server, or
//! whether a split written by hand may be taken; or replays packets that it makes from a number, and sums that up; or
//! says whether a report is true; or composes a chain of middleboxes into one; or makes a trace of a capture, or a
//! capture of a trace.
#![tactic(auto)]

mod audit;
mod captures;
mod chain;
mod check;
mod compile;
mod exceeding;
mod formats;
mod generated;
mod given;
mod input;
mod load;
mod lossy;
mod output;
mod refusal;
mod replay;
mod splitting;
mod status;
mod top;
mod words;

pub use status::Status;
pub use top::gallium;
