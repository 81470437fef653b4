//! Numbers of 1 to 64 bits: widths, operators, the checksum update, and short lists of numbers.
#![tactic(auto)]

mod checksum;
mod op;
mod values;
mod width;
mod widths;

pub use checksum::adjust;
pub use op::{Op, arity, eval, on_switch, op_name};
pub use values::Values;
pub use width::Width;
pub use widths::Widths;
