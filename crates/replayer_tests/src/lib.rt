//! Tests of replays: call by call, on runs whose reports are known from outside, and over links, on schedules whose ends
//! are; and of the packets, events and summaries of made traffic.
#![tactic(auto)]

#[cfg(test)]
mod frame_tests;
#[cfg(test)]
mod link_tests;
#[cfg(test)]
mod samples;
#[cfg(test)]
mod traffic_tests;
#[cfg(test)]
mod translator_tests;
