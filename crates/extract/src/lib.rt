// The extract of a sheet: every list whose first element is the unhinted `private` becomes `()`. What is shown is put together in local
// space by the sheet's notes, and from there read in form 1, so that what is lent for it is written once and never holds a hidden octet.
// Local space is sized by the sheet: a short one does not pay for clearing the largest.
#![tactic(auto)]

mod cut; // cut.rt: the octets that are shown

ghost use Rattle.std.specs.Prelude.{◌≡◌, ◌≤◌, length, ltb};
ghost use Rattle.model.specs.Answers.{sheet_tree};
ghost use Rattle.model.specs.Limits.{max_canonical, most_nodes};
ghost use Rattle.answers.specs.Cases.{outcome};
ghost use Rattle.lookup.specs.Noted.{Notes};
ghost use Rattle.reader.specs.Stored.{Noteable, Puts};
ghost use Rattle.extracts.specs.Extracting.{extracting, extracting_own};
ghost use Rattle.extract.specs.Given.{Sheets, Judged, Gives, Showable, ShowsExtract};

use answers::{Reading, Refusal};

// The notes of the first octets, and how many they are, if these are a sheet.
fn note(sheet: &[u8], octets: usize, notes: &mut [usize]) -> Option<usize>
    requires { Noteable octets (length notes.old) }
    ensures { Sheets sheet.now octets notes.new result }
{
    if octets > sheet.len() {
        return None;
    }
    if octets > limits::CANONICAL {
        return None;
    }
    let part = &sheet[..octets];
    match sheets::note(part, notes) {
        Ok(sizes) => {
            if sizes.depth > limits::DEPTH {
                return None;
            }
            Some(sizes.nodes)
        }
        Err(_) => None,
    }
}

// What is shown of a sheet, put together in the space lent and read; the notes become those of the extract.
fn show(
    sheet: &[u8],
    octets: usize,
    notes: &mut [usize],
    nodes: usize,
    canonical: &mut [u8],
    records: usize,
    scratch: &mut [u8],
) -> Reading
    requires { Showable sheet.now octets notes.old nodes (length scratch.old) }
    ensures { ShowsExtract sheet.now octets notes.old nodes canonical.old canonical.new records notes.new result }
{
    let part = &sheet[..octets];
    let n = cut::cut(part, notes, nodes, scratch);
    let text = &scratch[..n];
    reader::read_notes(1, text, canonical, notes, records)
}

// The same, in local space.
#[inline(never)]
fn show_sized<const SCRATCH: usize>(
    sheet: &[u8],
    octets: usize,
    notes: &mut [usize],
    nodes: usize,
    canonical: &mut [u8],
    records: usize,
) -> Reading
    requires showable { Showable sheet.now octets notes.old nodes SCRATCH }
    requires bounded { SCRATCH ≤ max_canonical }
    ensures { ShowsExtract sheet.now octets notes.old nodes canonical.old canonical.new records notes.new result }
{
    let mut scratch: [u8; SCRATCH] = [0; SCRATCH];
    show(
        sheet,
        octets,
        notes,
        nodes,
        canonical,
        records,
        &mut scratch,
    )
}

// The extract but for the table, for which so many records are lent; it is told whether there is a sheet, and these are its notes.
pub fn give(
    sheet: &[u8],
    octets: usize,
    notes: &mut [usize],
    nodes: usize,
    own: bool,
    canonical: &mut [u8],
    records: usize,
) -> Reading
    requires judged { Judged sheet.now octets notes.old nodes own }
    requires noteable { Noteable octets (length notes.old) }
    ensures { Gives sheet.now octets notes.old nodes own canonical.old canonical.new records notes.new result }
{
    if own {
        if octets <= limits::SHORT {
            return show_sized::<{ limits::SHORT }>(sheet, octets, notes, nodes, canonical, records);
        }
        if octets <= limits::MIDDLE {
            return show_sized::<{ limits::MIDDLE }>(
                sheet, octets, notes, nodes, canonical, records,
            );
        }
        return show_sized::<{ limits::CANONICAL }>(sheet, octets, notes, nodes, canonical, records);
    }
    Err(Refusal::NotOwn)
}

// The extract of a sheet but for the table, for which so many records are lent: the notes tell it.
pub fn extract_notes(
    sheet: &[u8],
    octets: usize,
    canonical: &mut [u8],
    notes: &mut [usize],
    records: usize,
) -> Reading
    requires { Noteable octets (length notes.old) }
    ensures { Puts (extracting sheet.now octets canonical.old) canonical.new records notes.new result }
{
    let Some(nodes) = note(sheet, octets, notes) else {
        return Err(Refusal::NotOwn);
    };
    give(sheet, octets, notes, nodes, true, canonical, records)
}

// The extract of a sheet into a sheet and a table of its own, by notes in local space.
#[inline(never)]
fn extract_sized<const NOTES: usize>(
    sheet: &[u8],
    octets: usize,
    canonical: &mut [u8],
    table: &mut [u32],
) -> Reading
    requires noteable { Noteable octets NOTES }
    requires bounded { NOTES ≤ most_nodes }
    ensures { outcome result canonical.new table.new ≡ extracting sheet.now octets canonical.old table.old }
{
    let mut notes: [usize; NOTES] = [0; NOTES];
    let records = table.len() / limits::WIDTH;
    let sizes = extract_notes(sheet, octets, canonical, &mut notes, records)?;
    tables::fill(&notes, sizes.nodes, table);
    Ok(sizes)
}

// S 11.2: the extract of the sheet in the first `octets` of those lent, into canonical octets and a node table of its own: every list in it
// whose first element is the unhinted `private` has become `()`. In a refusal both hold what they held; in an acceptance what lies past
// the octets and the records stays. Neither ever holds an octet that is hidden.
pub fn extract(sheet: &[u8], octets: usize, canonical: &mut [u8], table: &mut [u32]) -> Reading
    ensures { outcome result canonical.new table.new ≡ extracting sheet.now octets canonical.old table.old }
{
    if octets <= limits::SHORT {
        return extract_sized::<{ limits::SHORT_NOTES }>(sheet, octets, canonical, table);
    }
    if octets <= limits::MIDDLE {
        return extract_sized::<{ limits::MIDDLE_NOTES }>(sheet, octets, canonical, table);
    }
    extract_sized::<{ limits::NODES }>(sheet, octets, canonical, table)
}

// The same, where the sheet's own table is lent, by notes in local space.
#[inline(never)]
fn extract_own_sized<const NOTES: usize>(
    sheet: &[u8],
    octets: usize,
    rows: &[u32],
    nodes: usize,
    canonical: &mut [u8],
    table: &mut [u32],
) -> Reading
    requires noteable { Noteable octets NOTES }
    requires notes { Notes nodes NOTES }
    requires bounded { NOTES ≤ most_nodes }
    ensures { outcome result canonical.new table.new ≡ extracting_own sheet.now octets rows.now nodes canonical.old table.old }
{
    let mut notes: [usize; NOTES] = [0; NOTES];
    let records = table.len() / limits::WIDTH;
    let own = lookup::own_notes(sheet, octets, rows, nodes, &mut notes);
    let sizes = give(sheet, octets, &mut notes, nodes, own, canonical, records)?;
    tables::fill(&notes, sizes.nodes, table);
    Ok(sizes)
}

// The same, where the sheet's own table is lent.
pub fn extract_own(
    sheet: &[u8],
    octets: usize,
    rows: &[u32],
    nodes: usize,
    canonical: &mut [u8],
    table: &mut [u32],
) -> Reading
    ensures { outcome result canonical.new table.new ≡ extracting_own sheet.now octets rows.now nodes canonical.old table.old }
{
    if octets <= limits::SHORT {
        if nodes <= limits::SHORT_NOTES {
            return extract_own_sized::<{ limits::SHORT_NOTES }>(
                sheet, octets, rows, nodes, canonical, table,
            );
        }
    }
    if octets <= limits::MIDDLE {
        if nodes <= limits::MIDDLE_NOTES {
            return extract_own_sized::<{ limits::MIDDLE_NOTES }>(
                sheet, octets, rows, nodes, canonical, table,
            );
        }
    }
    extract_own_sized::<{ limits::NODES }>(sheet, octets, rows, nodes, canonical, table)
}
