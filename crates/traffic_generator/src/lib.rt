//! Work for a whole replay, made from a number: the packets of a trace and the events of a schedule, the address
//! translator that they are for with the limits of its split, and the summary of what comes of it.
#![tactic(auto)]

mod count;
mod packets;
mod schedule;
mod summary;
mod translator;

pub use count::Count;
pub use packets::packets_of;
pub use schedule::events_of;
pub use summary::print_summary;
pub use translator::{translator_limits, translator_source};
