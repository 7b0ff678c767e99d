// The entries over a table of numbers: the table is judged beside the sheet, and the node is looked at by the
// notes. These stand in local space, sized by the node count: a short sheet does not pay for clearing the notes of the largest.
ghost use Rattle.std.specs.Prelude.{◌≡◌, ◌≤◌};
ghost use Rattle.model.specs.Limits.{most_nodes};
ghost use Rattle.typed.specs.Cases.{valued, lined, summed};
ghost use Rattle.typed.specs.Asked.{valuing, lining, summing};
ghost use Rattle.lookup.specs.Noted.{Notes};

use super::{line_by, value_by, week_by};
use typed::{Lining, Summing, Valuing};

// A node's value, by notes in local space.
#[inline(never)]
fn value_sized<const NOTES: usize>(
    canonical: &[u8],
    length: usize,
    table: &[u32],
    nodes: usize,
    node: usize,
) -> Valuing
    requires enough { Notes nodes NOTES }
    requires bounded { NOTES ≤ most_nodes }
    ensures { valued result ≡ valuing canonical.now length table.now nodes node }
{
    let mut notes: [usize; NOTES] = [0; NOTES];
    let own = lookup::own_notes(canonical, length, table, nodes, &mut notes);
    value_by(canonical, &notes, nodes, node, own)
}

// S 10.2: a node's value, by its hint: `f32`, `f64`, `int`, else raw, which is told by its place in the sheet.
pub fn value(canonical: &[u8], length: usize, table: &[u32], nodes: usize, node: usize) -> Valuing
    ensures { valued result ≡ valuing canonical.now length table.now nodes node }
{
    if nodes <= limits::SHORT_NOTES {
        return value_sized::<{ limits::SHORT_NOTES }>(canonical, length, table, nodes, node);
    }
    if nodes <= limits::MIDDLE_NOTES {
        return value_sized::<{ limits::MIDDLE_NOTES }>(canonical, length, table, nodes, node);
    }
    value_sized::<{ limits::NODES }>(canonical, length, table, nodes, node)
}

// A node's line with its total, by notes in local space.
#[inline(never)]
fn line_sized<const NOTES: usize>(
    canonical: &[u8],
    length: usize,
    table: &[u32],
    nodes: usize,
    node: usize,
) -> Lining
    requires enough { Notes nodes NOTES }
    requires bounded { NOTES ≤ most_nodes }
    ensures { lined result ≡ lining canonical.now length table.now nodes node }
{
    let mut notes: [usize; NOTES] = [0; NOTES];
    let own = lookup::own_notes(canonical, length, table, nodes, &mut notes);
    line_by(canonical, &notes, nodes, node, own)
}

// S 10.3: a node's shift line, with its total.
pub fn line(canonical: &[u8], length: usize, table: &[u32], nodes: usize, node: usize) -> Lining
    ensures { lined result ≡ lining canonical.now length table.now nodes node }
{
    if nodes <= limits::SHORT_NOTES {
        return line_sized::<{ limits::SHORT_NOTES }>(canonical, length, table, nodes, node);
    }
    if nodes <= limits::MIDDLE_NOTES {
        return line_sized::<{ limits::MIDDLE_NOTES }>(canonical, length, table, nodes, node);
    }
    line_sized::<{ limits::NODES }>(canonical, length, table, nodes, node)
}

// The sum of a list of lines, by notes in local space.
#[inline(never)]
fn week_sized<const NOTES: usize>(
    canonical: &[u8],
    length: usize,
    table: &[u32],
    nodes: usize,
    node: usize,
) -> Summing
    requires enough { Notes nodes NOTES }
    requires bounded { NOTES ≤ most_nodes }
    ensures { summed result ≡ summing canonical.now length table.now nodes node }
{
    let mut notes: [usize; NOTES] = [0; NOTES];
    let own = lookup::own_notes(canonical, length, table, nodes, &mut notes);
    week_by(canonical, &notes, nodes, node, own)
}

// S 10.4: how many lines a list of lines has, and their total; or the first element that is no line.
pub fn week(canonical: &[u8], length: usize, table: &[u32], nodes: usize, node: usize) -> Summing
    ensures { summed result ≡ summing canonical.now length table.now nodes node }
{
    if nodes <= limits::SHORT_NOTES {
        return week_sized::<{ limits::SHORT_NOTES }>(canonical, length, table, nodes, node);
    }
    if nodes <= limits::MIDDLE_NOTES {
        return week_sized::<{ limits::MIDDLE_NOTES }>(canonical, length, table, nodes, node);
    }
    week_sized::<{ limits::NODES }>(canonical, length, table, nodes, node)
}
