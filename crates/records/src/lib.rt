// The node table as a lent slice of records. Every entry goes by the notes of a sheet, in local space. The functions that take
// records are few and thin.
#![tactic(auto)]

mod asked; // asked.rt: a sheet changed as asked
mod corrections; // corrections.rt: elements put into lists, and nodes removed
mod foremen; // foremen.rt: extracts
pub mod own; // own.rt: whether records are a sheet's own
mod piecing; // piecing.rt: texts in pieces
mod told; // told.rt: the record that a note tells, and one handed on to be judged

ghost use Rattle.std.specs.Prelude.{◌≡◌, ◌≤◌, length as size, [], max};
ghost use Rattle.model.specs.Limits.{most_nodes};
ghost use Rattle.model.specs.Answers.{reading, replacing, hint_part, data_part, hint_shown, data_shown, shown_or};
ghost use Rattle.answers.specs.Cases.{outcome, placed};
ghost use Rattle.answers.specs.Shown.{Shows, shown_at};
ghost use Rattle.lookup.specs.Noted.{Notes};
ghost use Rattle.reader.specs.Stored.{Noteable};
ghost use Rattle.records.specs.Numbers.{numbers, part_of};
ghost use Rattle.records.specs.Places.{Inside};
ghost use Rattle.records.specs.Told.{told_records, Tells};

use answers::{Part, Reading};
use asked::change;
pub use corrections::{insert, remove};
pub use foremen::{extract, extract_own};
pub use own::own_by;
pub use piecing::pieces_end;

// A node's record: its nine numbers, in the order of S 4.1.
#[repr(C)]
#[derive(Clone, Copy)]
pub struct Record {
    pub kind: u32,
    pub start: u32,
    pub end: u32,
    pub nodes: u32,
    pub hint_start: u32,
    pub hint_end: u32,
    pub data_start: u32,
    pub data_end: u32,
    pub parent: u32,
}

// The records of so many nodes become those that notes tell, and those past them, where `old` were in use, zeros.
fn tell(records: &mut [Record], notes: &[usize], nodes: usize, old: usize)
    requires { Tells notes.now nodes old (size records.old) }
    ensures { records.new ≡ told_records notes.now nodes (max old nodes) records.old }
{
    for i in 0..walk::larger(old, nodes) {
        records[i] = told::record_by(notes, nodes, i);
    }
}

// A text read by the notes lent.
fn read_in(
    form: u32,
    source: &[u8],
    canonical: &mut [u8],
    records: &mut [Record],
    notes: &mut [usize],
) -> Reading
    requires { Noteable (size source.now) (size notes.old) }
    ensures { outcome result canonical.new (numbers records.new) ≡ reading form source.now canonical.old (numbers records.old) }
{
    let sizes = reader::read_notes(form, source, canonical, notes, records.len())?;
    tell(records, notes, sizes.nodes, 0);
    Ok(sizes)
}

// The same, by notes in local space of a frame of its own, for which short calls don't pay.
#[inline(never)]
fn read_sized<const NOTES: usize>(
    form: u32,
    source: &[u8],
    canonical: &mut [u8],
    records: &mut [Record],
) -> Reading
    requires noteable { Noteable (size source.now) NOTES }
    requires bounded { NOTES ≤ most_nodes }
    ensures { outcome result canonical.new (numbers records.new) ≡ reading form source.now canonical.old (numbers records.old) }
{
    let mut notes: [usize; NOTES] = [0; NOTES];
    read_in(form, source, canonical, records, &mut notes)
}

// A text of the form named (1 canonical, 2 basic, 3 advanced, 4 advanced with trees in braces) into canonical octets and the records of
// its nodes. In a refusal both lent buffers hold what they held; in an acceptance what lies past the octets and the records stays.
pub fn read(form: u32, source: &[u8], canonical: &mut [u8], records: &mut [Record]) -> Reading
    ensures { outcome result canonical.new (numbers records.new) ≡ reading form source.now canonical.old (numbers records.old) }
{
    if source.len() <= limits::SHORT {
        let mut notes: [usize; limits::SHORT_NOTES] = [0; limits::SHORT_NOTES];
        return read_in(form, source, canonical, records, &mut notes);
    }
    if source.len() <= limits::MIDDLE {
        return read_sized::<{ limits::MIDDLE_NOTES }>(form, source, canonical, records);
    }
    read_sized::<{ limits::NODES }>(form, source, canonical, records)
}

// A node of the sheet with this length, node count and records gives way to the tree of a text of the form named. In a
// refusal both lent buffers hold what they held; in an acceptance what lies past the old and the new octets and records
// stays, and what lies between the new ones and larger old ones is zeroed.
pub fn replace(
    form: u32,
    text: &[u8],
    canonical: &mut [u8],
    records: &mut [Record],
    length: usize,
    nodes: usize,
    node: usize,
) -> Reading
    ensures { outcome result canonical.new (numbers records.new) ≡ replacing form text.now canonical.old (numbers records.old) length nodes node }
{
    let asked = asked::replace_node(node);
    change(form, text, canonical, records, length, nodes, asked)
}

// Where a node's hint or data stands, by the notes lent.
fn place_in(
    canonical: &[u8],
    length: usize,
    records: &[Record],
    nodes: usize,
    node: usize,
    hinted: bool,
    notes: &mut [usize],
) -> Option<Part>
    requires { Notes nodes (size notes.old) }
    ensures { placed result ≡ part_of hinted canonical.now length (numbers records.now) nodes node }
{
    let own = own_by(canonical, length, records, nodes, notes);
    lookup::place_by(notes, nodes, node, own, hinted)
}

// The same, by notes in a frame of its own, as in `read_sized`.
#[inline(never)]
fn place_sized<const NOTES: usize>(
    canonical: &[u8],
    length: usize,
    records: &[Record],
    nodes: usize,
    node: usize,
    hinted: bool,
) -> Option<Part>
    requires enough { Notes nodes NOTES }
    requires bounded { NOTES ≤ most_nodes }
    ensures { placed result ≡ part_of hinted canonical.now length (numbers records.now) nodes node }
{
    let mut notes: [usize; NOTES] = [0; NOTES];
    place_in(canonical, length, records, nodes, node, hinted, &mut notes)
}

// Where a node's hint stands, if it is a string with a hint; or where its data stands.
pub fn place(
    canonical: &[u8],
    length: usize,
    records: &[Record],
    nodes: usize,
    node: usize,
    hinted: bool,
) -> Option<Part>
    ensures { placed result ≡ part_of hinted canonical.now length (numbers records.now) nodes node }
{
    if nodes <= limits::SHORT_NOTES {
        let mut notes: [usize; limits::SHORT_NOTES] = [0; limits::SHORT_NOTES];
        return place_in(canonical, length, records, nodes, node, hinted, &mut notes);
    }
    if nodes <= limits::MIDDLE_NOTES {
        return place_sized::<{ limits::MIDDLE_NOTES }>(
            canonical, length, records, nodes, node, hinted,
        );
    }
    place_sized::<{ limits::NODES }>(canonical, length, records, nodes, node, hinted)
}

// The part of the sheet at a place, else what is given.
fn shown_or<'a>(canonical: &'a [u8], p: Option<Part>, other: &'a [u8]) -> &'a [u8]
    requires { Inside p (size canonical.now) }
    ensures { Shows result (shown_or (placed p) canonical.now other.now) (shown_at (placed p) canonical.entry.ref_ptr other.entry.ref_ptr) }
{
    match p {
        Some(part) => &canonical[part.start..part.end],
        None => other,
    }
}

// The part of the sheet at a place, else an empty part at its front.
fn shown<'a>(canonical: &'a [u8], p: Option<Part>) -> &'a [u8]
    requires { Inside p (size canonical.now) }
    ensures { Shows result (shown_or (placed p) canonical.now []) (shown_at (placed p) canonical.entry.ref_ptr canonical.entry.ref_ptr) }
{
    match p {
        Some(part) => &canonical[part.start..part.end],
        None => &canonical[0..0],
    }
}

// A node's hint: the part of the sheet that holds it, else the default.
pub fn hint<'a>(
    canonical: &'a [u8],
    length: usize,
    records: &[Record],
    nodes: usize,
    node: usize,
    default_hint: &'a [u8],
) -> &'a [u8]
    ensures { Shows result (hint_shown canonical.now length (numbers records.now) nodes node default_hint.now) (shown_at (hint_part canonical.now length (numbers records.now) nodes node) canonical.entry.ref_ptr default_hint.entry.ref_ptr) }
{
    let p = place(canonical, length, records, nodes, node, true);
    shown_or(canonical, p, default_hint)
}

// A node's data: the part of the sheet that holds it, else an empty part at the sheet's front.
pub fn data<'a>(
    canonical: &'a [u8],
    length: usize,
    records: &[Record],
    nodes: usize,
    node: usize,
) -> &'a [u8]
    ensures { Shows result (data_shown canonical.now length (numbers records.now) nodes node) (shown_at (data_part canonical.now length (numbers records.now) nodes node) canonical.entry.ref_ptr canonical.entry.ref_ptr) }
{
    let p = place(canonical, length, records, nodes, node, false);
    shown(canonical, p)
}
