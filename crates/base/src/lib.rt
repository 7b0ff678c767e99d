// Lemmas that every proof uses; no code.
#![tactic(auto)]

pub fn nothing() {}
