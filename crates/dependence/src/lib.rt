//! The greatest closed sets of a flat program, and stages as depths. Each is one pass over the instructions.
#![tactic(auto)]

mod backward;
mod depth;
mod forward;
mod guard;
mod marks;
mod operand;
mod uses;

pub use backward::{post_closure, post_closure_beside_guards};
pub use depth::depths;
pub use forward::{carried_closure, pre_closure};
pub use guard::guards;
pub use marks::{Depths, Marks};
pub use uses::Uses;
