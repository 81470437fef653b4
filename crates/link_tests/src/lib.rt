//! Tests of links and of the bytes of commands, on values from outside: no clause says them.
#![tactic(auto)]

#[cfg(test)]
mod command_tests;
#[cfg(test)]
mod link_tests;
