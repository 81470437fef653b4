//! Tests of frames, of the code of a switch and of the server, one module for each crate, on values from outside: no
//! clause says them.
#![tactic(auto)]

#[cfg(test)]
mod samples;
#[cfg(test)]
mod server_runtime_tests;
#[cfg(test)]
mod switch_ir_tests;
#[cfg(test)]
mod transfer_header_tests;
