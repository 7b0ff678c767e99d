// The limits (S 6.1) and the record's width (S 4.3), for the code. `model/specs/Limits` and `model/specs/Table` have the same numbers for
// the promises; where the two differ, proofs fail.
#![tactic(auto)]

// Octets of a source.
pub const SOURCE: usize = 32768;

// Lists within each other.
pub const DEPTH: usize = 128;

// Octets of a canonical form.
pub const CANONICAL: usize = 16384;

// Nodes that so many octets hold at most, each node having two or more: no limit, but what local space is made for.
pub const NODES: usize = CANONICAL / 2;

// Numbers of a record.
pub const WIDTH: usize = 9;

// Local space for a text comes in three sizes, so that a short text does not pay for clearing the largest. A text of n octets makes
// at most 3n canonical octets, hence at most 3n / 2 nodes.

// Octets of a short text, of its scratch, and its notes.
pub const SHORT: usize = 128;

pub const SHORT_SCRATCH: usize = 3 * SHORT + 64;

pub const SHORT_NOTES: usize = 3 * SHORT / 2;

// The same of one of middle length.
pub const MIDDLE: usize = 1024;

pub const MIDDLE_SCRATCH: usize = 3 * MIDDLE + 64;

pub const MIDDLE_NOTES: usize = 3 * MIDDLE / 2;

// Octets of scratch for the longest: what is written past the largest sheet starts again at the front.
pub const LONG_SCRATCH: usize = SOURCE + CANONICAL + 64;
