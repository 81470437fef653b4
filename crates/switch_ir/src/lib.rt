//! The code of a switch, what it computes, and the switch as the rest of the program calls it.
#![tactic(auto)]

mod code;
mod emitter;
mod journal;
mod last_reads;
mod looked_up;
mod port;
mod rest;
mod spans;
mod steps;

pub use code::{Pass, PassStep, Steps, SwitchCode, Table, Tables};
pub use emitter::{PassSpans, emit, spans_of_passes};
pub use journal::{Call, Entry, Journal};
pub use port::{DownEnd, PortError, SwitchPort, UpEnd};
