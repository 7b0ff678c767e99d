// Whether records are a sheet's own.
ghost use Rattle.std.specs.Prelude.{length as size};
ghost use Rattle.lookup.specs.Noted.{Notes, Owned};
ghost use Rattle.records.specs.Numbers.{numbers};

use crate::{Record, told};

// Whether the first `nodes` records are the table of the sheet of these octets (S 1.4); where they are, its notes are left.
pub fn own_by(
    canonical: &[u8],
    len: usize,
    records: &[Record],
    nodes: usize,
    notes: &mut [usize],
) -> bool
    requires { Notes nodes (size notes.old) }
    ensures { Owned canonical.now len (numbers records.now) nodes notes.new result }
{
    let end = lookup::bound(canonical.len(), len, records.len(), nodes);
    let mut state: usize = 0;
    while state < end {
        let k = lookup::node_of(state);
        let r = records[k];
        state = told::step(canonical, len, notes, nodes, r, state);
    }
    lookup::answer(end, len, state)
}
