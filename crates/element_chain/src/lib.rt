//! Chains of elements as one middlebox: what a chain does to a packet, and one middlebox that does the same.
#![tactic(auto)]

mod chain;

pub use chain::{Chain, Classes, Element, Elements, Target, Wire, Wires};
