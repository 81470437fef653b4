//! One middlebox that does what a chain of elements does, and the reasons for which there is none.
#![tactic(auto)]

mod body;
mod clearing;
mod composition;
mod count;
mod depth;
mod ends;
mod error;
mod expressions;
mod figures;
mod gauge;
mod heads;
mod matrix;
mod name_steps;
mod named;
mod names;
mod objects;
mod parts;
mod plain;
mod reach;
mod refusals;
mod routes;
mod sizes;
mod tally;
mod terms;
mod told;
mod uses;

pub use composition::compose;
pub use error::{ComposeError, What};
