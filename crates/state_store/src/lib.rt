//! The state of a middlebox: objects that are finite maps from key lists to value lists.
#![tactic(auto)]

mod any_table;
mod even_lists;
mod fitted_rows;
mod kept_rows;
mod listing;
mod object;
mod packed_list;
mod packed_rows;
mod packing;
mod placed_rows;
mod rows;
mod short_lists;
mod sorted_rows;
mod store;
mod stored;

pub use even_lists::put_numbers;
pub use listing::Listing;
pub use object::{Kind, ObjectDecl, Objects, Row, is_constant};
pub use rows::Rows;
pub use store::{Found, Put, Store};
