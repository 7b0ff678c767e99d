// Where a change takes place, by the notes of a sheet: no octet is looked at. The elements of a list are hopped over by node counts.
ghost use Rattle.std.specs.Prelude.{◌≡◌, ◌<◌, true, length, ltb};
ghost use Rattle.base.specs.Choice.{pick};
ghost use Rattle.tables.specs.Told.{row_at};
ghost use Rattle.plan.specs.Spots.{Recorded, Levels, Kept, Entry, Counts, Hoppable, Hops, Shown, Slot, Finds, Findable};

use crate::{Asked, Found, Spot};
use answers::Refusal;
use sheets::notes::LIST;
use sheets::places::SHIFT;

// How many lists are around a node: of the nodes before it, those that count it among theirs.
fn level(notes: &[usize], node: usize) -> usize
    requires { Recorded (length notes.now) node }
    ensures { Levels notes.now node result }
{
    let mut level: usize = 0;
    for j in 0..node {
        if tables::over(notes, j, node - j) {
            level += 1;
        }
    }
    level
}

// A node of a sheet.
fn entry(notes: &[usize], nodes: usize, node: usize) -> Found
    requires { Kept notes.now nodes }
    ensures { Entry notes.now nodes node result }
{
    if node >= nodes {
        return Err(Refusal::NoNode);
    }
    let row = tables::row_of(notes, node);
    let around = level(notes, node);
    Ok(Spot {
        first: node,
        count: row.nodes as usize,
        start: row.start as usize,
        end: row.end as usize,
        level: around,
    })
}

// How many nodes a node has, itself among them.
fn count_of(notes: &[usize], node: usize) -> usize
    requires { node < length notes.now }
    ensures { Counts notes.now node result }
{
    let third = notes[node] / SHIFT / SHIFT % SHIFT;
    if third < LIST {
        return 1;
    }
    third - LIST
}

// Over k elements, from a node on, of a list whose nodes end before `end`.
fn hop(notes: &[usize], end: usize, k: usize, from: usize) -> Option<usize>
    requires { Hoppable (length notes.now) end from }
    ensures { Hops notes.now end k from result }
{
    let mut j = from;
    for _ in 0..k {
        if j >= end {
            return None;
        }
        j += count_of(notes, j);
    }
    Some(j)
}

// Where the element begins that has a number so far, or the end that is given past the last of them.
fn octet(notes: &[usize], first: usize, end: usize, past: usize) -> usize
    requires { Shown notes.now first end }
    ensures { result ≡ pick (ltb first end) (row_at notes.now first).start past }
{
    if first < end {
        let row = tables::row_of(notes, first);
        return row.start as usize;
    }
    past
}

// The place of the k-th element of a node, which must be a list.
fn slot(notes: &[usize], nodes: usize, node: usize, k: usize) -> Found
    requires kept { Kept notes.now nodes }
    requires node_lt_nodes { node < nodes }
    ensures { Slot notes.now nodes node k result }
{
    let row = tables::row_of(notes, node);
    if row.kind != 2 {
        return Err(Refusal::NoPlace);
    }
    let end = node + row.nodes as usize;
    let Some(first) = hop(notes, end, k, node + 1) else {
        return Err(Refusal::NoPlace);
    };
    let at = octet(notes, first, end, row.data_end as usize);
    let around = level(notes, node);
    Ok(Spot {
        first,
        count: 0,
        start: at,
        end: at,
        level: around + 1,
    })
}

// The place of an element that comes in: row 8 before row 9.
fn insertion(notes: &[usize], nodes: usize, node: usize, k: usize) -> Found
    requires { Kept notes.now nodes }
    ensures { Finds notes.now nodes true (Asked.Insert node k) result }
{
    if node >= nodes {
        return Err(Refusal::NoNode);
    }
    slot(notes, nodes, node, k)
}

// A node that is removed. Node 0 is always there, so that row 9 may be asked first.
fn removal(notes: &[usize], nodes: usize, node: usize) -> Found
    requires { Kept notes.now nodes }
    ensures { Finds notes.now nodes true (Asked.Remove node) result }
{
    if node == 0 {
        return Err(Refusal::NoPlace);
    }
    entry(notes, nodes, node)
}

// The spot of a change of a sheet.
fn spot(notes: &[usize], nodes: usize, asked: Asked) -> Found
    requires { Kept notes.now nodes }
    ensures { Finds notes.now nodes true asked result }
{
    match asked {
        Asked::Replace { node } => entry(notes, nodes, node),
        Asked::Insert { node, k } => insertion(notes, nodes, node, k),
        Asked::Remove { node } => removal(notes, nodes, node),
    }
}

// Rows 7, 8 and 9, and the spot where none applies.
pub fn find(notes: &[usize], own: bool, nodes: usize, asked: Asked) -> Found
    requires { Findable notes.now nodes own }
    ensures { Finds notes.now nodes own asked result }
{
    if own {
        return spot(notes, nodes, asked);
    }
    Err(Refusal::NotOwn)
}
