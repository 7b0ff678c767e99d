// The definitions that every promise cites (specs/) and the laws about them (proofs/); no code.
#![tactic(auto)]

pub fn nothing() {}
