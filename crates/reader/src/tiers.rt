// Local space for a text, in several sizes: a short text does not pay for clearing the largest.
ghost use Rattle.std.specs.Prelude.{◌≡◌, ◌≤◌, length};
ghost use Rattle.model.specs.Answers.{place_of};
ghost use Rattle.model.specs.Decode.{decode};
ghost use Rattle.model.specs.Limits.{most_nodes};
ghost use Rattle.answers.specs.Cases.{outcome};
ghost use Rattle.texts.specs.Texts.{Literal};
ghost use Rattle.reader.specs.Stored.{read_tree, Spaced, Puts};

use crate::{put, put_literal, read_in};
use answers::Reading;

// Octets of the shortest texts, which nothing but reading over numbers has a size for, of their scratch, and their notes.
pub const BRIEF: usize = 64;

pub const BRIEF_SCRATCH: usize = 3 * BRIEF + 64;

pub const BRIEF_NOTES: usize = 3 * BRIEF / 2;

// A text that rows 1 and 2 don't apply to, in a frame of its own.
#[inline(never)]
pub fn read_sized<const SCRATCH: usize, const NOTES: usize>(
    form: u32,
    source: &[u8],
    canonical: &mut [u8],
    table: &mut [u32],
) -> Reading
    requires spaced { Spaced form (length source.now) SCRATCH NOTES }
    requires bounded { NOTES ≤ most_nodes }
    ensures { outcome result canonical.new table.new ≡ read_tree (decode form source.now) (place_of form source.now) canonical.old table.old }
{
    let mut scratch: [u8; SCRATCH] = [0; SCRATCH];
    let mut notes: [usize; NOTES] = [0; NOTES];
    read_in(form, source, canonical, table, &mut scratch, &mut notes)
}

// Canonical text of any length: notes alone.
#[inline(never)]
pub fn read_literal(form: u32, source: &[u8], canonical: &mut [u8], table: &mut [u32]) -> Reading
    requires { Literal form (length source.now) }
    ensures { outcome result canonical.new table.new ≡ read_tree (decode form source.now) (place_of form source.now) canonical.old table.old }
{
    let mut notes: [usize; limits::NODES] = [0; limits::NODES];
    let records = table.len() / limits::WIDTH;
    let sizes = put_literal(form, source, canonical, records, &mut notes)?;
    tables::fill(&notes, sizes.nodes, table);
    Ok(sizes)
}

// A text but for its table, by scratch in a frame of its own.
#[inline(never)]
pub fn put_sized<const SCRATCH: usize>(
    form: u32,
    source: &[u8],
    canonical: &mut [u8],
    records: usize,
    notes: &mut [usize],
) -> Reading
    requires { Spaced form (length source.now) SCRATCH (length notes.old) }
    ensures { Puts (read_tree (decode form source.now) (place_of form source.now) canonical.old) canonical.new records notes.new result }
{
    let mut scratch: [u8; SCRATCH] = [0; SCRATCH];
    put(form, source, canonical, records, &mut scratch, notes)
}
