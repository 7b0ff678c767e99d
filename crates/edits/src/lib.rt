// Where a node stands in a tree (specs/), and what replacing or removing it, or inserting into it, does to octets,
// records and depth (proofs/); no code.
#![tactic(auto)]

pub fn nothing() {}
