// A node's value, a shift line and a list of lines, with the table lent as records: the records are compared with the sheet, and the
// node looked at by its notes. Notes stand in local space, in three sizes by the node count.
#![tactic(auto)]

ghost use Rattle.std.specs.Prelude.{◌≡◌, ◌≤◌, length as size};
ghost use Rattle.model.specs.Limits.{most_nodes};
ghost use Rattle.typed.specs.Cases.{valued, lined, summed};
ghost use Rattle.typed.specs.Asked.{valuing, lining, summing};
ghost use Rattle.lookup.specs.Noted.{Notes};
ghost use Rattle.records.specs.Numbers.{numbers};

use records::Record;
use typed::{Lining, Summing, Valuing};

// A node's value, by the notes lent.
fn value_in(
    canonical: &[u8],
    length: usize,
    records: &[Record],
    nodes: usize,
    node: usize,
    notes: &mut [usize],
) -> Valuing
    requires { Notes nodes (size notes.old) }
    ensures { valued result ≡ valuing canonical.now length (numbers records.now) nodes node }
{
    let own = records::own_by(canonical, length, records, nodes, notes);
    shifts::value_by(canonical, notes, nodes, node, own)
}

// The same, by notes in local space of a frame of its own, for which short calls don't pay.
#[inline(never)]
fn value_sized<const NOTES: usize>(
    canonical: &[u8],
    length: usize,
    records: &[Record],
    nodes: usize,
    node: usize,
) -> Valuing
    requires enough { Notes nodes NOTES }
    requires bounded { NOTES ≤ most_nodes }
    ensures { valued result ≡ valuing canonical.now length (numbers records.now) nodes node }
{
    let mut notes: [usize; NOTES] = [0; NOTES];
    value_in(canonical, length, records, nodes, node, &mut notes)
}

// A node's value.
pub fn value(
    canonical: &[u8],
    length: usize,
    records: &[Record],
    nodes: usize,
    node: usize,
) -> Valuing
    ensures { valued result ≡ valuing canonical.now length (numbers records.now) nodes node }
{
    if nodes <= limits::SHORT_NOTES {
        let mut notes: [usize; limits::SHORT_NOTES] = [0; limits::SHORT_NOTES];
        return value_in(canonical, length, records, nodes, node, &mut notes);
    }
    if nodes <= limits::MIDDLE_NOTES {
        return value_sized::<{ limits::MIDDLE_NOTES }>(canonical, length, records, nodes, node);
    }
    value_sized::<{ limits::NODES }>(canonical, length, records, nodes, node)
}

// A node's line with its total, by the notes lent.
fn line_in(
    canonical: &[u8],
    length: usize,
    records: &[Record],
    nodes: usize,
    node: usize,
    notes: &mut [usize],
) -> Lining
    requires { Notes nodes (size notes.old) }
    ensures { lined result ≡ lining canonical.now length (numbers records.now) nodes node }
{
    let own = records::own_by(canonical, length, records, nodes, notes);
    shifts::line_by(canonical, notes, nodes, node, own)
}

// The same, by notes in a frame of its own.
#[inline(never)]
fn line_sized<const NOTES: usize>(
    canonical: &[u8],
    length: usize,
    records: &[Record],
    nodes: usize,
    node: usize,
) -> Lining
    requires enough { Notes nodes NOTES }
    requires bounded { NOTES ≤ most_nodes }
    ensures { lined result ≡ lining canonical.now length (numbers records.now) nodes node }
{
    let mut notes: [usize; NOTES] = [0; NOTES];
    line_in(canonical, length, records, nodes, node, &mut notes)
}

// A node's line with its total.
pub fn line(
    canonical: &[u8],
    length: usize,
    records: &[Record],
    nodes: usize,
    node: usize,
) -> Lining
    ensures { lined result ≡ lining canonical.now length (numbers records.now) nodes node }
{
    if nodes <= limits::SHORT_NOTES {
        let mut notes: [usize; limits::SHORT_NOTES] = [0; limits::SHORT_NOTES];
        return line_in(canonical, length, records, nodes, node, &mut notes);
    }
    if nodes <= limits::MIDDLE_NOTES {
        return line_sized::<{ limits::MIDDLE_NOTES }>(canonical, length, records, nodes, node);
    }
    line_sized::<{ limits::NODES }>(canonical, length, records, nodes, node)
}

// The sum of a list of lines, by the notes lent.
fn week_in(
    canonical: &[u8],
    length: usize,
    records: &[Record],
    nodes: usize,
    node: usize,
    notes: &mut [usize],
) -> Summing
    requires { Notes nodes (size notes.old) }
    ensures { summed result ≡ summing canonical.now length (numbers records.now) nodes node }
{
    let own = records::own_by(canonical, length, records, nodes, notes);
    shifts::week_by(canonical, notes, nodes, node, own)
}

// The same, by notes in a frame of its own.
#[inline(never)]
fn week_sized<const NOTES: usize>(
    canonical: &[u8],
    length: usize,
    records: &[Record],
    nodes: usize,
    node: usize,
) -> Summing
    requires enough { Notes nodes NOTES }
    requires bounded { NOTES ≤ most_nodes }
    ensures { summed result ≡ summing canonical.now length (numbers records.now) nodes node }
{
    let mut notes: [usize; NOTES] = [0; NOTES];
    week_in(canonical, length, records, nodes, node, &mut notes)
}

// The sum of a list of lines.
pub fn week(
    canonical: &[u8],
    length: usize,
    records: &[Record],
    nodes: usize,
    node: usize,
) -> Summing
    ensures { summed result ≡ summing canonical.now length (numbers records.now) nodes node }
{
    if nodes <= limits::SHORT_NOTES {
        let mut notes: [usize; limits::SHORT_NOTES] = [0; limits::SHORT_NOTES];
        return week_in(canonical, length, records, nodes, node, &mut notes);
    }
    if nodes <= limits::MIDDLE_NOTES {
        return week_sized::<{ limits::MIDDLE_NOTES }>(canonical, length, records, nodes, node);
    }
    week_sized::<{ limits::NODES }>(canonical, length, records, nodes, node)
}
