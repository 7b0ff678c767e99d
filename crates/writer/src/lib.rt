// A sheet written out: form 2 from its octets, whose length is told first, so that whoever lends the room can see whether it is
// enough; form 3 from its lexemes, to scratch that is always enough.
#![tactic(auto)]

pub mod advanced;
pub mod basic;
