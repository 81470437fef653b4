//! A flat program with a legal split of it answers as the state of a replay asks, and so does a switch that tells its
//! tables. There is nothing to run here: the definitions stand in `specs`, and the laws in `proofs/Laws`.
#![tactic(auto)]
