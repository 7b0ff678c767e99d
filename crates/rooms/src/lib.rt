// Whether a tree has room, judged by sizes alone.
#![tactic(auto)]

ghost use Rattle.answers.specs.Cases.{Judges};
ghost use Rattle.rooms.specs.Rooms.{room_verdict};

use answers::{Judging, Refusal};
use walk::Extent;

// The first of rows 4 to 6 that applies to a tree of these sizes, in room for so many octets and records.
pub fn room(sizes: Extent, octets: usize, records: usize) -> Judging
    ensures { Judges (room_verdict sizes.depth sizes.nodes sizes.len octets records) result }
{
    if sizes.depth > limits::DEPTH {
        return Err(Refusal::Depth);
    }
    if sizes.nodes > records {
        return Err(Refusal::Nodes);
    }
    if sizes.len > limits::CANONICAL {
        return Err(Refusal::Size);
    }
    if sizes.len > octets {
        return Err(Refusal::Size);
    }
    Ok(())
}
