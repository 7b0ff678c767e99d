// The reference program's corpus: its cases taken apart, and the digest that its lines have. reference/README.md gives the
// format.
#![tactic(auto)]

pub mod digest;
pub mod places;
pub mod wire;
