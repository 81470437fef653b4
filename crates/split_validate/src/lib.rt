//! The texts of splits and of what they use, and whether a split is legal and keeps the limits.
#![tactic(auto)]

mod counts_text;
mod operand;
mod part_line;
mod reading;
mod rules;
mod split_text;
mod validating;

pub use counts_text::print_counts;
pub use reading::{SplitTextError, read_split};
pub use split_text::print_split;
pub use validating::{Illegal, validate};
