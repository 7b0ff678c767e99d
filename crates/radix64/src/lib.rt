// Base-64: four letters and three octets, and a group of letters at a place, up to a closing mark, a bar or a brace.
#![tactic(auto)]

pub mod bits; // bits.rt: four letters and three octets
pub mod steps; // steps.rt: a group letter by letter

pub use bits::octets;
