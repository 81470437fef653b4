//! Tests of the whole program over files, sinks and a switch that fail where a test plans it.
#![tactic(auto)]

#[cfg(test)]
mod fault_tests;
