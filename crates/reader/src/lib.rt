// Reading: a text of any form into canonical octets and the node table. The text becomes octets and notes in local space first (of
// long canonical text, which is its own octets, only notes), so that syntax is judged before any limit, and nothing lent is written until nothing can be refused any more.
#![tactic(auto)]

mod tiers; // tiers.rt: local space for a text

ghost use Rattle.std.specs.Prelude.{◌≡◌, length};
ghost use Rattle.model.specs.Decode.{decode};
ghost use Rattle.model.specs.Answers.{place_of, reading};
ghost use Rattle.answers.specs.Cases.{outcome};
ghost use Rattle.texts.specs.Texts.{Literal};
ghost use Rattle.reader.specs.Stored.{read_tree, Noteable, Spaced, Puts};

use answers::{Reading, Sizes};
use tiers::{put_sized, read_literal, read_sized};

// All but the table, for which so many records are lent: the text judged and its octets put. The notes tell the table.
pub fn put(
    form: u32,
    source: &[u8],
    canonical: &mut [u8],
    records: usize,
    scratch: &mut [u8],
    notes: &mut [usize],
) -> Reading
    requires { Spaced form (length source.now) (length scratch.old) (length notes.old) }
    ensures { Puts (read_tree (decode form source.now) (place_of form source.now) canonical.old) canonical.new records notes.new result }
{
    let sizes = texts::take(form, source, scratch, notes)?;
    rooms::room(sizes, canonical.len(), records)?;
    scan::copy(scratch, 0, sizes.len, canonical, 0);
    Ok(Sizes {
        length: sizes.len,
        nodes: sizes.nodes,
    })
}

// The same of canonical text, whose octets are its own: no scratch is asked for.
pub fn put_literal(
    form: u32,
    source: &[u8],
    canonical: &mut [u8],
    records: usize,
    notes: &mut [usize],
) -> Reading
    requires literal { Literal form (length source.now) }
    requires noteable { Noteable (length source.now) (length notes.old) }
    ensures { Puts (read_tree (decode form source.now) (place_of form source.now) canonical.old) canonical.new records notes.new result }
{
    let sizes = texts::take_literal(form, source, notes)?;
    rooms::room(sizes, canonical.len(), records)?;
    scan::copy(source, 0, sizes.len, canonical, 0);
    Ok(Sizes {
        nodes: sizes.nodes,
        length: sizes.len,
    })
}

// A text that rows 1 and 2 don't apply to, in the local space lent.
fn read_in(
    form: u32,
    source: &[u8],
    canonical: &mut [u8],
    table: &mut [u32],
    scratch: &mut [u8],
    notes: &mut [usize],
) -> Reading
    requires { Spaced form (length source.now) (length scratch.old) (length notes.old) }
    ensures { outcome result canonical.new table.new ≡ read_tree (decode form source.now) (place_of form source.now) canonical.old table.old }
{
    let records = table.len() / limits::WIDTH;
    let sizes = put(form, source, canonical, records, scratch, notes)?;
    tables::fill(notes, sizes.nodes, table);
    Ok(sizes)
}

// A text of the form named (1 canonical, 2 basic, 3 advanced, 4 advanced with trees in braces) into canonical octets and the node
// table, nine numbers to a node. In a refusal both lent buffers hold what they held; in an acceptance what lies past the octets and the
// records stays.
pub fn read(form: u32, source: &[u8], canonical: &mut [u8], table: &mut [u32]) -> Reading
    ensures { outcome result canonical.new table.new ≡ reading form source.now canonical.old table.old }
{
    // Lent again, a slice goes on in registers.
    let source = &*source;
    texts::row(form, source.len())?;
    // Basic text outside braces is canonical text.
    if texts::bare(form, source) {
        return read(1, source, canonical, table);
    }
    if source.len() <= tiers::BRIEF {
        return read_sized::<{ tiers::BRIEF_SCRATCH }, { tiers::BRIEF_NOTES }>(
            form, source, canonical, table,
        );
    }
    if source.len() <= limits::SHORT {
        return read_sized::<{ limits::SHORT_SCRATCH }, { limits::SHORT_NOTES }>(
            form, source, canonical, table,
        );
    }
    if source.len() <= limits::MIDDLE {
        return read_sized::<{ limits::MIDDLE_SCRATCH }, { limits::MIDDLE_NOTES }>(
            form, source, canonical, table,
        );
    }
    if texts::literal(form) {
        return read_literal(form, source, canonical, table);
    }
    read_sized::<{ limits::LONG_SCRATCH }, { limits::NODES }>(form, source, canonical, table)
}

// The same but for the table, for which so many records are lent: the notes tell it.
pub fn read_notes(
    form: u32,
    source: &[u8],
    canonical: &mut [u8],
    notes: &mut [usize],
    records: usize,
) -> Reading
    requires { Noteable (length source.now) (length notes.old) }
    ensures { Puts (reading form source.now canonical.old) canonical.new records notes.new result }
{
    texts::row(form, source.len())?;
    if source.len() <= limits::SHORT {
        let mut scratch: [u8; limits::SHORT_SCRATCH] = [0; limits::SHORT_SCRATCH];
        return put(form, source, canonical, records, &mut scratch, notes);
    }
    if source.len() <= limits::MIDDLE {
        return put_sized::<{ limits::MIDDLE_SCRATCH }>(form, source, canonical, records, notes);
    }
    if texts::literal(form) {
        return put_literal(form, source, canonical, records, notes);
    }
    put_sized::<{ limits::LONG_SCRATCH }>(form, source, canonical, records, notes)
}
