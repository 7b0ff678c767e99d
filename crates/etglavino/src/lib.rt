// The library's entries: nothing else is a user's business. Each answers and ends whatever it is given, and each promise is an
// equation with one definition: it settles the answer and every lent octet and number afterwards. What is passed on stands with its
// promise in the crate that it comes from, the steps of an addition as methods of its state.
#![tactic(auto)]

mod piecing; // piecing.rt: texts in pieces

ghost use Rattle.std.specs.Prelude.{◌≡◌};
ghost use Rattle.model.specs.Answers.{reading, replacing, writing, comparing, hint_part, data_part, hint_shown, data_shown};
ghost use Rattle.answers.specs.Cases.{outcome, output, told, placed};
ghost use Rattle.answers.specs.Shown.{Shows, shown_at};

use answers::{Comparing, Part, Reading, Writing};
pub use batch::split;
pub use editor::{insert, remove};
pub use extract::{extract, extract_own};
pub use hours::total;
pub use piecing::{pieces_end, pieces_feed, pieces_start};
pub use shifts::{line, value, week};
pub use spool::{
    add as spool_add, open as spool_open, shown as spool_shown, start as spool_add_start,
};
pub use values::put_value;

// S 8.1: a text of the form named (1 canonical, 2 basic, 3 advanced, 4 advanced with trees in braces) into canonical octets and the node
// table, nine numbers to a node. In a refusal both lent buffers hold what they held; in an acceptance what lies past the octets and the
// records stays.
pub fn read(form: u32, source: &[u8], canonical: &mut [u8], table: &mut [u32]) -> Reading
    ensures { outcome result canonical.new table.new ≡ reading form source.now canonical.old table.old }
{
    reader::read(form, source, canonical, table)
}

// S 8.2: the sheet in the first `length` octets, written in the form named. In a refusal the output holds what it held; in an acceptance
// what lies past the octets written stays.
pub fn write(form: u32, canonical: &[u8], length: usize, out: &mut [u8]) -> Writing
    ensures { output result out.new ≡ writing form canonical.now length out.old }
{
    write::write(form, canonical, length, out)
}

// S 8.3: a node of the sheet with this length, node count and table gives way to the tree of a text of the form named. In a refusal both
// lent buffers hold what they held; in an acceptance what lies past the old and the new octets and records stays, and what lies between
// the new ones and larger old ones is zeroed.
pub fn replace(
    form: u32,
    text: &[u8],
    canonical: &mut [u8],
    table: &mut [u32],
    length: usize,
    nodes: usize,
    node: usize,
) -> Reading
    ensures { outcome result canonical.new table.new ≡ replacing form text.now canonical.old table.old length nodes node }
{
    editor::replace(form, text, canonical, table, length, nodes, node)
}

// S 8.4: two sheets compared: the same shape, data and hints, where a missing hint counts as the default.
pub fn same(a: &[u8], a_length: usize, b: &[u8], b_length: usize, default_hint: &[u8]) -> Comparing
    ensures { told result ≡ comparing a.now a_length b.now b_length default_hint.now }
{
    lookup::same(a, a_length, b, b_length, default_hint)
}

// S 8.5: a node's hint: the part of the sheet that holds it, else the default, bad sheets and tables included.
pub fn hint<'a>(
    canonical: &'a [u8],
    length: usize,
    table: &[u32],
    nodes: usize,
    node: usize,
    default_hint: &'a [u8],
) -> &'a [u8]
    ensures { Shows result (hint_shown canonical.now length table.now nodes node default_hint.now) (shown_at (hint_part canonical.now length table.now nodes node) canonical.entry.ref_ptr default_hint.entry.ref_ptr) }
{
    lookup::hint(canonical, length, table, nodes, node, default_hint)
}

// S 8.5: a node's data: the part of the sheet that holds it, else an empty part at the sheet's front.
pub fn data<'a>(
    canonical: &'a [u8],
    length: usize,
    table: &[u32],
    nodes: usize,
    node: usize,
) -> &'a [u8]
    ensures { Shows result (data_shown canonical.now length table.now nodes node) (shown_at (data_part canonical.now length table.now nodes node) canonical.entry.ref_ptr canonical.entry.ref_ptr) }
{
    lookup::data(canonical, length, table, nodes, node)
}

// S 8.5: where a node's hint stands in the sheet, if it is a string with a hint.
pub fn hint_place(
    canonical: &[u8],
    length: usize,
    table: &[u32],
    nodes: usize,
    node: usize,
) -> Option<Part>
    ensures { placed result ≡ hint_part canonical.now length table.now nodes node }
{
    lookup::hint_place(canonical, length, table, nodes, node)
}

// S 8.5: where a node's data stands in the sheet.
pub fn data_place(
    canonical: &[u8],
    length: usize,
    table: &[u32],
    nodes: usize,
    node: usize,
) -> Option<Part>
    ensures { placed result ≡ data_part canonical.now length table.now nodes node }
{
    lookup::data_place(canonical, length, table, nodes, node)
}
