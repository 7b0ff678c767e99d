// The record that a note tells.
ghost use Rattle.std.specs.Prelude.{◌≡◌, length, get_or, ltb};
ghost use Rattle.tables.specs.Rows.{RowIs};
ghost use Rattle.tables.specs.Told.{plain_by, list_by, hinted_by, hint_end_by, row_at, parent_part, PlainNote, ListNote, HintNote, TailNote, Readable, Countable};

use crate::rows::{Row, hinted_row, list_row, plain_row};
use sheets::notes::LIST;
use sheets::places::SHIFT;

// A string's.
fn plain_by(start: usize, end: usize) -> Row
    requires { PlainNote start end }
    ensures { RowIs result (plain_by start end) }
{
    plain_row(start - decimal::width(end - start) - 1, start, end)
}

// A list's.
pub fn list_by(start: usize, end: usize, nodes: usize) -> Row
    requires { ListNote start end nodes }
    ensures { RowIs result (list_by start end nodes) }
{
    list_row(start - 1, end + 1, nodes)
}

// A string's with a hint.
pub fn hinted_by(start: usize, end: usize, from: usize, to: usize) -> Row
    requires { HintNote start end from to }
    ensures { RowIs result (hinted_by start end from to) }
{
    hinted_row(from - decimal::width(to - from) - 2, from, to, start, end)
}

// Where the hint ends of which the string stands from start to end.
pub fn hint_end(start: usize, end: usize) -> usize
    requires { TailNote start end }
    ensures { result ≡ hint_end_by start end }
{
    start - decimal::width(end - start) - 2
}

// A node's.
pub fn row_of(notes: &[usize], node: usize) -> Row
    requires { Readable notes.now node }
    ensures { RowIs result (row_at notes.now node) }
{
    let note = notes[node];
    let end = note % SHIFT;
    let start = note / SHIFT % SHIFT;
    let third = note / SHIFT / SHIFT % SHIFT;
    if third == 0 {
        return plain_by(start, end);
    }
    if third < LIST {
        return hinted_by(start, end, third, hint_end(start, end));
    }
    list_by(start, end, third - LIST)
}

// The number of the list around it.
pub fn parent_of(notes: &[usize], node: usize) -> u32
    requires { Readable notes.now node }
    ensures { result ≡ parent_part (get_or notes.now node 0) }
{
    let up = notes[node] / SHIFT / SHIFT / SHIFT % SHIFT;
    up as u32
}

// Whether a node has over n nodes, itself among them.
pub fn over(notes: &[usize], node: usize, n: usize) -> bool
    requires { Countable (length notes.now) node n }
    ensures { result ≡ ltb n (row_at notes.now node).count }
{
    notes[node] / SHIFT / SHIFT % SHIFT > LIST + n
}
