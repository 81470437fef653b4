//! A flat program in three parts: what is done on the switch before the server, by the server, and on the switch after
//! it.
#![tactic(auto)]

mod bounds;
mod guards;
mod kinds;
mod layout;
mod layouts;
mod readers;
mod shown;
mod split;
mod values;

pub use bounds::is_bounded;
pub use guards::guard_values;
pub use layout::{Crossing, Layout, layout_bytes};
pub use layouts::{Layouts, is_at_hand};
pub use readers::{Reader, read_by};
pub use shown::replicated;
pub use split::{Part, Slow, Split, stage_or_zero};
pub use values::{ValueSet, is_value};
