// A sheet and its records gone through one record at a time, for whoever holds the records.
ghost use Rattle.std.specs.Prelude.{◌≡◌};
ghost use Rattle.tables.specs.Rows.{record_list};
ghost use Rattle.lookup.specs.Pacing.{node_of, Bounded, answers, Passable, Passed, Turnable, Turned};

use tables::Row;

// The state of a record that claims no note, and of notes that the octets don't bear out.
const LOST: usize = 18446744073709551615;

// The state past all records; 0 where a sheet of this length, or so many records of those lent, can't be.
pub fn bound(octets: usize, len: usize, room: usize, nodes: usize) -> usize
    ensures { Bounded octets len room nodes result }
{
    if len > octets {
        return 0;
    }
    if len > limits::CANONICAL {
        return 0;
    }
    if len == 0 {
        return 0;
    }
    if nodes > limits::NODES {
        return 0;
    }
    if nodes > room {
        return 0;
    }
    nodes
}

// The number of the record that is next: a state is the number of those gone through.
pub fn node_of(state: usize) -> usize
    ensures { result ≡ node_of state }
{
    state
}

// A note kept, and the state after it; after the last one the octets bear the notes out or don't.
fn passed(
    canonical: &[u8],
    len: usize,
    notes: &mut [usize],
    nodes: usize,
    note: usize,
    state: usize,
) -> usize
    requires { Passable canonical.now len nodes notes.old note state }
    ensures { Passed canonical.now len nodes notes.old note state notes.new result }
{
    notes[state] = note;
    let next = state + 1;
    if next != nodes {
        return next;
    }
    let part = &canonical[..len];
    if owned::own(part, nodes, notes) {
        return nodes + len;
    }
    LOST
}

// The record that is next: the note that it claims is kept.
pub fn turn(
    canonical: &[u8],
    len: usize,
    notes: &mut [usize],
    nodes: usize,
    row: Row,
    parent: u32,
    state: usize,
) -> usize
    requires { Turnable canonical.now len (record_list row parent) nodes notes.old state }
    ensures { Turned canonical.now len (record_list row parent) nodes notes.old state notes.new result }
{
    if row.kind == 0 {
        let Some(note) = tables::plain_claim(row, parent) else {
            return LOST;
        };
        return passed(canonical, len, notes, nodes, note, state);
    }
    let Some(note) = tables::other_claim(
        row.kind,
        row.start,
        row.end,
        row.nodes,
        row.hint_start,
        row.hint_end,
        row.data_start,
        row.data_end,
        parent,
    ) else {
        return LOST;
    };
    passed(canonical, len, notes, nodes, note, state)
}

// Whether the records are the sheet's own, by the state at which they were gone through.
pub fn answer(end: usize, len: usize, state: usize) -> bool
    ensures { result ≡ answers end len state }
{
    if end == 0 {
        return false;
    }
    if state < end {
        return false;
    }
    state - end == len
}
