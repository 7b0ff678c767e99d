// The note of a record, which it claims: whether octets bear it out is not asked here. None where no note tells such a record.
ghost use Rattle.std.specs.Prelude.{◌≡◌, [], ◌∷◌};
ghost use Rattle.tables.specs.Rows.{record_list};
ghost use Rattle.tables.specs.Claimed.{Claimed, Short};

use crate::rows::{Row, plain_row, same_row};
use crate::told::{hint_end, hinted_by, list_by};
use sheets::notes::{LIST, THIRD, TOP};
use sheets::places::{SHIFT, pack};

// A string's of fewer than ten octets: one digit and a colon stand before them.
fn short_claim(row: Row, up: u32) -> Option<usize>
    requires kind_value { row.kind ≡ 0 }
    requires short { Short row.data_start row.data_end }
    ensures { Claimed (record_list row up) result }
{
    let start = row.data_start as usize;
    let end = row.data_end as usize;
    if row.start as usize + 2 != start {
        return None;
    }
    if row.end != row.data_end {
        return None;
    }
    if row.nodes != 1 {
        return None;
    }
    if row.hint_start != 0 {
        return None;
    }
    if row.hint_end != 0 {
        return None;
    }
    if up as usize >= SHIFT {
        return None;
    }
    Some(pack(start, end) + up as usize * TOP)
}

// A string's. Most have a length of one digit, and are tested apart.
pub fn plain_claim(row: Row, up: u32) -> Option<usize>
    requires { row.kind ≡ 0 }
    ensures { Claimed (record_list row up) result }
{
    let start = row.data_start as usize;
    let end = row.data_end as usize;
    if end > limits::SOURCE {
        return None;
    }
    if start > end {
        return None;
    }
    if end - start < 10 {
        return short_claim(row, up);
    }
    // Digits and a colon.
    let ahead = decimal::width(end - start) + 1;
    if ahead > start {
        return None;
    }
    if up as usize >= SHIFT {
        return None;
    }
    if same_row(row, up, plain_row(start - ahead, start, end), up) {
        return Some(pack(start, end) + up as usize * TOP);
    }
    None
}

// A list's.
fn list_claim(row: Row, up: u32) -> Option<usize>
    requires { row.kind ≡ 2 }
    ensures { Claimed (record_list row up) result }
{
    let start = row.data_start as usize;
    let end = row.data_end as usize;
    let count = row.nodes as usize;
    if end >= limits::SOURCE {
        return None;
    }
    if start == 0 {
        return None;
    }
    if start > end + 1 {
        return None;
    }
    if count >= LIST {
        return None;
    }
    if up as usize >= SHIFT {
        return None;
    }
    if same_row(row, up, list_by(start, end, count), up) {
        return Some(pack(start, end) + (LIST + count) * THIRD + up as usize * TOP);
    }
    None
}

// A string's with a hint.
fn hint_claim(row: Row, up: u32) -> Option<usize>
    requires { row.kind ≡ 1 }
    ensures { Claimed (record_list row up) result }
{
    let start = row.data_start as usize;
    let end = row.data_end as usize;
    let from = row.hint_start as usize;
    if end > limits::SOURCE {
        return None;
    }
    if start > end {
        return None;
    }
    if decimal::width(end - start) + 2 > start {
        return None;
    }
    let to = hint_end(start, end);
    if from > to {
        return None;
    }
    if decimal::width(to - from) + 2 > from {
        return None;
    }
    if up as usize >= SHIFT {
        return None;
    }
    if same_row(row, up, hinted_by(start, end, from, to), up) {
        return Some(pack(start, end) + from * THIRD + up as usize * TOP);
    }
    None
}

// Any other record's. Its numbers come one by one: a record that is passed on whole is stored, and for each string too.
pub fn other_claim(
    kind: u32,
    start: u32,
    end: u32,
    nodes: u32,
    hint_start: u32,
    hint_end: u32,
    data_start: u32,
    data_end: u32,
    up: u32,
) -> Option<usize>
    requires { kind ≡ 0 → ⊥ }
    ensures { Claimed (kind ∷ start ∷ end ∷ nodes ∷ hint_start ∷ hint_end ∷ data_start ∷ data_end ∷ up ∷ []) result }
{
    let row = Row {
        kind,
        start,
        end,
        nodes,
        hint_start,
        hint_end,
        data_start,
        data_end,
    };
    if kind == 2 {
        return list_claim(row, up);
    }
    if kind == 1 {
        return hint_claim(row, up);
    }
    None
}
