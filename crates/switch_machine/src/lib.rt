//! A switch in memory. It computes a pass stage by stage, where each stage reads all that it needs before it writes.
#![tactic(auto)]

mod active_pass;
mod calls;
mod crossing;
mod going;
mod live;
mod loaded;
mod loaded_pass;
mod machine;
mod numbering;
mod passes;
mod ready;
mod run;
mod sides;
mod stages;
mod tables;
mod written;

pub use calls::CallKind;
pub use machine::ModelSwitch;
