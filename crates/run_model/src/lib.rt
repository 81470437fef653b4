//! What a run is: its events, how far its packets have come, their serial order, and what is told of all this.
#![tactic(auto)]

mod event;
mod fate;
mod link_event;
mod run;
mod serial;

pub use event::{Event, Events};
pub use fate::{Fate, Fates};
pub use link_event::{Link, LinkEvent, LinkEvents};
pub use run::{ObjectRows, Order, Run, StoreRows, store_rows};
pub use serial::{Decided, order};
