//! The server: it gives what a split program leaves to it, over its own store.
#![tactic(auto)]

mod allocation;
mod plan;
mod registers;
mod resolved;
mod room;
mod run;
mod served;
mod server;
mod step;

pub use served::{ServeError, Served};
pub use server::Server;
