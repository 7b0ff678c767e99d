// Extracts for foremen, whose tables are records.
ghost use Rattle.std.specs.Prelude.{◌≡◌, ◌≤◌, length as size};
ghost use Rattle.model.specs.Limits.{most_nodes};
ghost use Rattle.answers.specs.Cases.{outcome};
ghost use Rattle.reader.specs.Stored.{Noteable};
ghost use Rattle.extracts.specs.Extracting.{extracting, extracting_own};
ghost use Rattle.records.specs.Numbers.{numbers};
ghost use Rattle.records.specs.Places.{Extractable};

use crate::own::own_by;
use crate::{Record, tell};
use answers::Reading;

// The extract of a sheet, into a sheet and records of its own, by the notes lent.
fn extract_in(
    sheet: &[u8],
    length: usize,
    canonical: &mut [u8],
    records: &mut [Record],
    notes: &mut [usize],
) -> Reading
    requires { Noteable length (size notes.old) }
    ensures { outcome result canonical.new (numbers records.new) ≡ extracting sheet.now length canonical.old (numbers records.old) }
{
    let sizes = extract::extract_notes(sheet, length, canonical, notes, records.len())?;
    tell(records, notes, sizes.nodes, 0);
    Ok(sizes)
}

// The same, by notes in a frame of its own, as in `read_sized`.
#[inline(never)]
fn extract_sized<const NOTES: usize>(
    sheet: &[u8],
    length: usize,
    canonical: &mut [u8],
    records: &mut [Record],
) -> Reading
    requires noteable { Noteable length NOTES }
    requires bounded { NOTES ≤ most_nodes }
    ensures { outcome result canonical.new (numbers records.new) ≡ extracting sheet.now length canonical.old (numbers records.old) }
{
    let mut notes: [usize; NOTES] = [0; NOTES];
    extract_in(sheet, length, canonical, records, &mut notes)
}

// S 11.2: the extract of a sheet, into a sheet and records of its own.
pub fn extract(sheet: &[u8], length: usize, canonical: &mut [u8], records: &mut [Record]) -> Reading
    ensures { outcome result canonical.new (numbers records.new) ≡ extracting sheet.now length canonical.old (numbers records.old) }
{
    if length <= limits::SHORT {
        let mut notes: [usize; limits::SHORT_NOTES] = [0; limits::SHORT_NOTES];
        return extract_in(sheet, length, canonical, records, &mut notes);
    }
    if length <= limits::MIDDLE {
        return extract_sized::<{ limits::MIDDLE_NOTES }>(sheet, length, canonical, records);
    }
    extract_sized::<{ limits::NODES }>(sheet, length, canonical, records)
}

// The same, where the sheet's own records are lent, by the notes lent.
fn extract_own_in(
    sheet: &[u8],
    length: usize,
    rows: &[Record],
    nodes: usize,
    canonical: &mut [u8],
    records: &mut [Record],
    notes: &mut [usize],
) -> Reading
    requires { Extractable length nodes (size notes.old) }
    ensures { outcome result canonical.new (numbers records.new) ≡ extracting_own sheet.now length (numbers rows.now) nodes canonical.old (numbers records.old) }
{
    let own = own_by(sheet, length, rows, nodes, notes);
    let sizes = extract::give(sheet, length, notes, nodes, own, canonical, records.len())?;
    tell(records, notes, sizes.nodes, 0);
    Ok(sizes)
}

// The same, by notes in a frame of its own.
#[inline(never)]
fn extract_own_sized<const NOTES: usize>(
    sheet: &[u8],
    length: usize,
    rows: &[Record],
    nodes: usize,
    canonical: &mut [u8],
    records: &mut [Record],
) -> Reading
    requires extractable { Extractable length nodes NOTES }
    requires bounded { NOTES ≤ most_nodes }
    ensures { outcome result canonical.new (numbers records.new) ≡ extracting_own sheet.now length (numbers rows.now) nodes canonical.old (numbers records.old) }
{
    let mut notes: [usize; NOTES] = [0; NOTES];
    extract_own_in(sheet, length, rows, nodes, canonical, records, &mut notes)
}

// The same, where the sheet's own records are lent.
pub fn extract_own(
    sheet: &[u8],
    length: usize,
    rows: &[Record],
    nodes: usize,
    canonical: &mut [u8],
    records: &mut [Record],
) -> Reading
    ensures { outcome result canonical.new (numbers records.new) ≡ extracting_own sheet.now length (numbers rows.now) nodes canonical.old (numbers records.old) }
{
    if length <= limits::SHORT {
        if nodes <= limits::SHORT_NOTES {
            let mut notes: [usize; limits::SHORT_NOTES] = [0; limits::SHORT_NOTES];
            return extract_own_in(sheet, length, rows, nodes, canonical, records, &mut notes);
        }
    }
    if length <= limits::MIDDLE {
        if nodes <= limits::MIDDLE_NOTES {
            return extract_own_sized::<{ limits::MIDDLE_NOTES }>(
                sheet, length, rows, nodes, canonical, records,
            );
        }
    }
    extract_own_sized::<{ limits::NODES }>(sheet, length, rows, nodes, canonical, records)
}
