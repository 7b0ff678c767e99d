// Extracts for foremen: without the sheet's own table and with it, over numbers and over records.
ghost use Rattle.std.specs.Prelude.{◌≡◌};
ghost use Rattle.extracts.specs.Extracting.{extracting, extracting_own};
ghost use Rattle.etglavino_c.specs.Pointers.{outcome_of};
ghost use Rattle.records.specs.Numbers.{numbers};

use crate::hand_reading;
use records::Record;

#[unsafe(no_mangle)]
pub extern "C" fn etg_extract(
    sheet: &[u8],
    length: usize,
    canonical: &mut [u8],
    table: &mut [u32],
    new_length: &mut usize,
    new_nodes: &mut usize,
) -> u32
    ensures { outcome_of result new_length.new new_nodes.new canonical.new table.new ≡ extracting sheet.now length canonical.old table.old }
{
    let answer = etglavino::extract(sheet, length, canonical, table);
    hand_reading(answer, new_length, new_nodes)
}

#[unsafe(no_mangle)]
pub extern "C" fn etg_extract_own(
    sheet: &[u8],
    length: usize,
    rows: &[u32],
    nodes: usize,
    canonical: &mut [u8],
    table: &mut [u32],
    new_length: &mut usize,
    new_nodes: &mut usize,
) -> u32
    ensures { outcome_of result new_length.new new_nodes.new canonical.new table.new ≡ extracting_own sheet.now length rows.now nodes canonical.old table.old }
{
    let answer = etglavino::extract_own(sheet, length, rows, nodes, canonical, table);
    hand_reading(answer, new_length, new_nodes)
}

#[unsafe(no_mangle)]
pub extern "C" fn etg_extract_records(
    sheet: &[u8],
    length: usize,
    canonical: &mut [u8],
    records: &mut [Record],
    new_length: &mut usize,
    new_nodes: &mut usize,
) -> u32
    ensures { outcome_of result new_length.new new_nodes.new canonical.new (numbers records.new) ≡ extracting sheet.now length canonical.old (numbers records.old) }
{
    let answer = records::extract(sheet, length, canonical, records);
    hand_reading(answer, new_length, new_nodes)
}

#[unsafe(no_mangle)]
pub extern "C" fn etg_extract_own_records(
    sheet: &[u8],
    length: usize,
    rows: &[Record],
    nodes: usize,
    canonical: &mut [u8],
    records: &mut [Record],
    new_length: &mut usize,
    new_nodes: &mut usize,
) -> u32
    ensures { outcome_of result new_length.new new_nodes.new canonical.new (numbers records.new) ≡ extracting_own sheet.now length (numbers rows.now) nodes canonical.old (numbers records.old) }
{
    let answer = records::extract_own(sheet, length, rows, nodes, canonical, records);
    hand_reading(answer, new_length, new_nodes)
}
