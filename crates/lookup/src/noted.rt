// A sheet by its notes: noted, and what a node of it shows.
ghost use Rattle.std.specs.Prelude.{length as size};
ghost use Rattle.lookup.specs.Noted.{Notes, Owned, Readables, ShowsPlace};

use crate::turns::bound;
use answers::Part;
use tables::rows::{parent_at, row_at};

// Whether the first `nodes` records are the table of the sheet of these octets (S 1.4: the sheet's own); where they are, these are its
// notes.
pub fn own_notes(
    canonical: &[u8],
    len: usize,
    table: &[u32],
    nodes: usize,
    notes: &mut [usize],
) -> bool
    requires { Notes nodes (size notes.old) }
    ensures { Owned canonical.now len table.now nodes notes.new result }
{
    if bound(canonical.len(), len, table.len() / limits::WIDTH, nodes) == 0 {
        return false;
    }
    let mut k: usize = 0;
    while k < nodes {
        let row = row_at(table, k);
        let parent = parent_at(table, k);
        if row.kind == 0 {
            let Some(note) = tables::plain_claim(row, parent) else {
                return false;
            };
            notes[k] = note;
            k += 1;
            continue;
        }
        let Some(note) = tables::other_claim(
            row.kind,
            row.start,
            row.end,
            row.nodes,
            row.hint_start,
            row.hint_end,
            row.data_start,
            row.data_end,
            parent,
        ) else {
            return false;
        };
        notes[k] = note;
        k += 1;
    }
    let part = &canonical[..len];
    owned::own(part, nodes, notes)
}

// Where a node's hint stands, if it is a string with a hint, or where its data stands; by the notes of a sheet, where they are told to
// be its own records'.
pub fn place_by(notes: &[usize], nodes: usize, node: usize, own: bool, hinted: bool) -> Option<Part>
    requires { Readables notes.now nodes own }
    ensures { ShowsPlace notes.now nodes node own hinted result }
{
    if own {
        if node >= nodes {
            return None;
        }
        let row = tables::row_of(notes, node);
        if hinted {
            if row.kind != 1 {
                return None;
            }
            return Some(Part {
                start: row.hint_start as usize,
                end: row.hint_end as usize,
            });
        }
        return Some(Part {
            start: row.data_start as usize,
            end: row.data_end as usize,
        });
    }
    None
}
