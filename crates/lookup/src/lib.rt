// Sheets looked into: whether octets are one, whether a table is its own, what a node shows, and two of them compared.
#![tactic(auto)]

mod alike; // alike.rt: lexeme by lexeme
pub mod noted; // noted.rt: a sheet by its notes
pub mod turns; // turns.rt: a sheet and its records, one record at a time
mod parts; // parts.rt: octets compared

ghost use Rattle.std.specs.Prelude.{not, ◌≡◌, ◌+◌, ◌*◌, ◌≤◌, ◌<◌, length as size, get_or};
ghost use Rattle.model.specs.Limits.{most_nodes};
ghost use Rattle.model.specs.Table.{width};
ghost use Rattle.base.specs.Choice.{is_none};
ghost use Rattle.model.specs.Answers.{sheet_tree, own_tree, hint_part, data_part, hint_shown, data_shown, comparing};
ghost use Rattle.answers.specs.Cases.{placed, told};
ghost use Rattle.answers.specs.Shown.{Shows, shown_at};
ghost use Rattle.lookup.specs.Numbers.{InRecord};
ghost use Rattle.lookup.specs.Noted.{Notes};

use answers::{Comparing, Part, Refusal};
pub use noted::{own_notes, place_by};
pub use turns::{answer, bound, node_of, turn};

// Whether the first `length` octets are one fitting canonical form (S 1.1: a sheet).
pub fn sheet(canonical: &[u8], length: usize) -> bool
    ensures { result ≡ not (is_none (sheet_tree canonical.now length)) }
{
    if length > canonical.len() {
        return false;
    }
    if length > limits::CANONICAL {
        return false;
    }
    let part = &canonical[..length];
    match sheets::measure(part) {
        Ok(sizes) => sizes.depth <= limits::DEPTH,
        Err(_) => false,
    }
}

// The same as `own_sheet`, by notes in local space.
#[inline(never)]
fn own_sized<const NOTES: usize>(
    canonical: &[u8],
    length: usize,
    table: &[u32],
    nodes: usize,
) -> bool
    requires enough { Notes nodes NOTES }
    requires bounded { NOTES ≤ most_nodes }
    ensures { result ≡ not (is_none (own_tree canonical.now length table.now nodes)) }
{
    let mut notes: [usize; NOTES] = [0; NOTES];
    own_notes(canonical, length, table, nodes, &mut notes)
}

// Whether, besides, the first `nodes` records are its table (S 1.4: the sheet's own). A short sheet does not pay for clearing the
// notes of the largest.
pub fn own_sheet(canonical: &[u8], length: usize, table: &[u32], nodes: usize) -> bool
    ensures { result ≡ not (is_none (own_tree canonical.now length table.now nodes)) }
{
    if nodes <= limits::SHORT_NOTES {
        return own_sized::<{ limits::SHORT_NOTES }>(canonical, length, table, nodes);
    }
    if nodes <= limits::MIDDLE_NOTES {
        return own_sized::<{ limits::MIDDLE_NOTES }>(canonical, length, table, nodes);
    }
    own_sized::<{ limits::NODES }>(canonical, length, table, nodes)
}

// The k-th number of a node's record.
pub fn number(table: &[u32], node: usize, k: usize) -> usize
    requires { InRecord (size table.now) node k }
    ensures { result ≡ get_or table.now (node * width + k) 0 }
{
    table[node * limits::WIDTH + k] as usize
}

// Where a node's hint stands, if it is a string with a hint.
pub fn hint_place(
    canonical: &[u8],
    length: usize,
    table: &[u32],
    nodes: usize,
    node: usize,
) -> Option<Part>
    ensures { placed result ≡ hint_part canonical.now length table.now nodes node }
{
    if own_sheet(canonical, length, table, nodes) {
        if node >= nodes {
            return None;
        }
        if number(table, node, 0) != 1 {
            return None;
        }
        Some(Part {
            start: number(table, node, 4),
            end: number(table, node, 5),
        })
    } else {
        None
    }
}

// Where a node's data stands.
pub fn data_place(
    canonical: &[u8],
    length: usize,
    table: &[u32],
    nodes: usize,
    node: usize,
) -> Option<Part>
    ensures { placed result ≡ data_part canonical.now length table.now nodes node }
{
    if own_sheet(canonical, length, table, nodes) {
        if node >= nodes {
            return None;
        }
        Some(Part {
            start: number(table, node, 6),
            end: number(table, node, 7),
        })
    } else {
        None
    }
}

// A node's hint: the part of the sheet that holds it, else the default.
pub fn hint<'a>(
    canonical: &'a [u8],
    length: usize,
    table: &[u32],
    nodes: usize,
    node: usize,
    default_hint: &'a [u8],
) -> &'a [u8]
    ensures { Shows result (hint_shown canonical.now length table.now nodes node default_hint.now) (shown_at (hint_part canonical.now length table.now nodes node) canonical.entry.ref_ptr default_hint.entry.ref_ptr) }
{
    match hint_place(canonical, length, table, nodes, node) {
        Some(part) => &canonical[part.start..part.end],
        None => default_hint,
    }
}

// A node's data: the part of the sheet that holds it, else an empty part at the sheet's front.
pub fn data<'a>(
    canonical: &'a [u8],
    length: usize,
    table: &[u32],
    nodes: usize,
    node: usize,
) -> &'a [u8]
    ensures { Shows result (data_shown canonical.now length table.now nodes node) (shown_at (data_part canonical.now length table.now nodes node) canonical.entry.ref_ptr canonical.entry.ref_ptr) }
{
    match data_place(canonical, length, table, nodes, node) {
        Some(part) => &canonical[part.start..part.end],
        None => &canonical[0..0],
    }
}

// Two sheets compared: the same shape, data and hints, where a missing hint counts as the default. The same octets are the same
// sheet, and need be judged once only.
pub fn same(a: &[u8], a_length: usize, b: &[u8], b_length: usize, default_hint: &[u8]) -> Comparing
    ensures { told result ≡ comparing a.now a_length b.now b_length default_hint.now }
{
    if sheet(a, a_length) {
        if parts::copied(a, a_length, b, b_length) {
            return Ok(true);
        }
        if sheet(b, b_length) {
            let left = &a[..a_length];
            let right = &b[..b_length];
            Ok(alike::alike(left, right, default_hint))
        } else {
            Err(Refusal::NotOwn)
        }
    } else {
        Err(Refusal::NotOwn)
    }
}
