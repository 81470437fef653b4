//! What every crate cites of tests, lists and numbers, beside the lemmas of std. There is nothing to run here.
#![tactic(auto)]
