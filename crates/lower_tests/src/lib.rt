//! Tests of the crates that stand lowest, one module for each, on values from outside: no clause says them.
#![tactic(auto)]

#[cfg(test)]
mod gal_io_tests;
#[cfg(test)]
mod output_commit_tests;
#[cfg(test)]
mod samples;
#[cfg(test)]
mod state_store_tests;
#[cfg(test)]
mod writeback_table_tests;
