//! What a replay tells is a report: what is printed of it is read back as that very run. There is nothing to run here:
//! the law is a lemma.
#![tactic(auto)]
