// Elements put into lists, and nodes removed: over numbers and over records.
ghost use Rattle.std.specs.Prelude.{◌≡◌};
ghost use Rattle.model.specs.Corrections.{inserting, removing};
ghost use Rattle.etglavino_c.specs.Pointers.{outcome_at, outcome_of};
ghost use Rattle.records.specs.Numbers.{numbers};

use crate::{hand_placed, hand_reading};
use records::Record;

#[unsafe(no_mangle)]
pub extern "C" fn etg_insert(
    form: u32,
    text: &[u8],
    canonical: &mut [u8],
    table: &mut [u32],
    length: usize,
    nodes: usize,
    node: usize,
    k: usize,
    new_length: &mut usize,
    new_nodes: &mut usize,
    place: &mut usize,
) -> u32
    ensures { outcome_at result place.new new_length.new new_nodes.new canonical.new table.new ≡ inserting form text.now canonical.old table.old length nodes node k }
{
    let answer = etglavino::insert(form, text, canonical, table, length, nodes, node, k);
    hand_placed(answer, new_length, new_nodes, place)
}

#[unsafe(no_mangle)]
pub extern "C" fn etg_remove(
    canonical: &mut [u8],
    table: &mut [u32],
    length: usize,
    nodes: usize,
    node: usize,
    new_length: &mut usize,
    new_nodes: &mut usize,
) -> u32
    ensures { outcome_of result new_length.new new_nodes.new canonical.new table.new ≡ removing canonical.old table.old length nodes node }
{
    let answer = etglavino::remove(canonical, table, length, nodes, node);
    hand_reading(answer, new_length, new_nodes)
}

#[unsafe(no_mangle)]
pub extern "C" fn etg_insert_records(
    form: u32,
    text: &[u8],
    canonical: &mut [u8],
    records: &mut [Record],
    length: usize,
    nodes: usize,
    node: usize,
    k: usize,
    new_length: &mut usize,
    new_nodes: &mut usize,
    place: &mut usize,
) -> u32
    ensures { outcome_at result place.new new_length.new new_nodes.new canonical.new (numbers records.new) ≡ inserting form text.now canonical.old (numbers records.old) length nodes node k }
{
    let answer = records::insert(form, text, canonical, records, length, nodes, node, k);
    hand_placed(answer, new_length, new_nodes, place)
}

#[unsafe(no_mangle)]
pub extern "C" fn etg_remove_records(
    canonical: &mut [u8],
    records: &mut [Record],
    length: usize,
    nodes: usize,
    node: usize,
    new_length: &mut usize,
    new_nodes: &mut usize,
) -> u32
    ensures { outcome_of result new_length.new new_nodes.new canonical.new (numbers records.new) ≡ removing canonical.old (numbers records.old) length nodes node }
{
    let answer = records::remove(canonical, records, length, nodes, node);
    hand_reading(answer, new_length, new_nodes)
}
