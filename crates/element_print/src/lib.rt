//! Middleboxes as texts.
#![tactic(auto)]

mod decl;
mod decl_lengths;
mod depths;
mod expr;
mod expr_lengths;
mod lengths;
mod middlebox;
mod place;
mod stmt;
mod token_lengths;
mod tokens;

pub use decl_lengths::decls_length;
pub use depths::{decls_depth, expr_depth, head_depth};
pub use lengths::{NameLengths, head_length, text_length};
pub use middlebox::print;
pub use place::Place;
pub use token_lengths::{field_length, frame_length, literal_length, number_length};
