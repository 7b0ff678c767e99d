// The record that a note tells; and a record handed on to be judged.
ghost use Rattle.std.specs.Prelude.{◌≡◌};
ghost use Rattle.lookup.specs.Pacing.{Turnable, Turned};
ghost use Rattle.tables.specs.Rows.{record_list};
ghost use Rattle.records.specs.Numbers.{nine};
ghost use Rattle.records.specs.Told.{nil, told_at, Tellable};

use crate::Record;

// A record with the numbers of a row, and of the list around its node.
fn record_with(row: tables::Row, up: u32) -> Record
    ensures { nine result ≡ record_list row up }
{
    Record {
        kind: row.kind,
        start: row.start,
        end: row.end,
        nodes: row.nodes,
        hint_start: row.hint_start,
        hint_end: row.hint_end,
        data_start: row.data_start,
        data_end: row.data_end,
        parent: up,
    }
}

// A record of zeros.
fn zero_record() -> Record
    ensures { result ≡ nil }
{
    Record {
        kind: 0,
        start: 0,
        end: 0,
        nodes: 0,
        hint_start: 0,
        hint_end: 0,
        data_start: 0,
        data_end: 0,
        parent: 0,
    }
}

// Record i of a sheet of so many nodes: the one that its note tells, and zeros past the nodes.
pub fn record_by(notes: &[usize], nodes: usize, i: usize) -> Record
    requires { Tellable notes.now nodes i }
    ensures { result ≡ told_at notes.now nodes i }
{
    if i < nodes {
        return record_with(tables::row_of(notes, i), tables::parent_of(notes, i));
    }
    zero_record()
}

// The next record of a table: its note is kept, and after the last the octets are asked.
pub fn step(
    canonical: &[u8],
    len: usize,
    notes: &mut [usize],
    nodes: usize,
    r: Record,
    state: usize,
) -> usize
    requires { Turnable canonical.now len (nine r) nodes notes.old state }
    ensures { Turned canonical.now len (nine r) nodes notes.old state notes.new result }
{
    let row = tables::Row {
        kind: r.kind,
        start: r.start,
        end: r.end,
        nodes: r.nodes,
        hint_start: r.hint_start,
        hint_end: r.hint_end,
        data_start: r.data_start,
        data_end: r.data_end,
    };
    lookup::turn(canonical, len, notes, nodes, row, r.parent, state)
}
