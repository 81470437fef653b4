//! Flat programs: what they are, which are well formed, what they do to packets, and how they are listed.
#![tactic(auto)]

mod blocks;
mod eval;
mod fits;
mod guards;
mod kinds;
mod listing;
mod program;
mod reading;
mod reg_plan;
mod registers;
mod renaming;
mod spans;
mod taken;
mod well_formed;
mod work;

pub use blocks::is_live;
pub use eval::{eval_flat, leave, write_fields};
pub use guards::write_guards;
pub use listing::print_flat;
pub use program::{Block, Blocks, Code, FieldValue, Flat, Instr, InstrKind, Out, ValueId};
pub use reading::{Lookup, Numbers};
pub use reg_plan::RegPlan;
pub use registers::Results;
pub use renaming::Renaming;
pub use spans::{Span, Spans};
pub use well_formed::is_well_formed;
pub use work::{
    Arrival, compute, compute_number, given, given_number, key_of, look, row_of, what_fits_can_run,
};
