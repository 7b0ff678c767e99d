// What the specification says of entries and of corrections, as theorems about the definitions that the entries promise (proofs/); no code.
#![tactic(auto)]

pub fn nothing() {}
