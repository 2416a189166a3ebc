//! Lemmas on Booleans, numbers and lists that several crates cite and that the kit does not have. The crate has no code.
#![tactic(auto)]
