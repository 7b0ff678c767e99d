// The C interface: the public entries with the number of S 7.1 as the return value. What is asked for goes out through pointers and is
// 0 in a refusal, but for the place with 3 and the node of a week with 12. include/etglavino.h tells a C program how to call them.
#![tactic(auto)]

mod batching; // batching.rt: sheets written back to back
mod corrections; // corrections.rt: elements put into lists, and nodes removed
mod foremen; // foremen.rt: extracts for foremen
mod piecing; // piecing.rt: texts in pieces
mod spooling; // spooling.rt: the spool
mod valuing; // valuing.rt: values with a type, and hours

ghost use Rattle.std.specs.Prelude.{◌≡◌};
ghost use Rattle.model.specs.Answers.{reading, replacing, writing, comparing, hint_part, data_part};
ghost use Rattle.etglavino_c.specs.Pointers.{outcome_at, HandsReading, HandsPlaced, output_of, compared, compared_of, shown, shown_of, HandsPlace};
ghost use Rattle.records.specs.Numbers.{numbers};

use answers::{Part, Reading};
use records::Record;

// An answer of reading or replacing, with its place.
fn hand_placed(answer: Reading, length: &mut usize, nodes: &mut usize, place: &mut usize) -> u32
    ensures { HandsPlaced answer result length.new nodes.new place.new }
{
    match answer {
        Ok(sizes) => {
            *length = sizes.length;
            *nodes = sizes.nodes;
            *place = 0;
            0
        }
        Err(refusal) => {
            *length = 0;
            *nodes = 0;
            *place = refusal.place();
            refusal.number()
        }
    }
}

// An answer that tells no place.
fn hand_reading(answer: Reading, length: &mut usize, nodes: &mut usize) -> u32
    ensures { HandsReading answer result length.new nodes.new }
{
    let mut place: usize = 0;
    hand_placed(answer, length, nodes, &mut place)
}

// A place: 1, where it starts and where it ends; or 0.
fn hand_place(place: Option<Part>, start: &mut usize, end: &mut usize) -> u32
    ensures { HandsPlace place result start.new end.new }
{
    match place {
        Some(part) => {
            *start = part.start;
            *end = part.end;
            1
        }
        None => {
            *start = 0;
            *end = 0;
            0
        }
    }
}

#[unsafe(no_mangle)]
pub extern "C" fn etg_read(
    form: u32,
    source: &[u8],
    canonical: &mut [u8],
    table: &mut [u32],
    length: &mut usize,
    nodes: &mut usize,
    place: &mut usize,
) -> u32
    ensures { outcome_at result place.new length.new nodes.new canonical.new table.new ≡ reading form source.now canonical.old table.old }
{
    let answer = etglavino::read(form, source, canonical, table);
    hand_placed(answer, length, nodes, place)
}

#[unsafe(no_mangle)]
pub extern "C" fn etg_write(
    form: u32,
    canonical: &[u8],
    length: usize,
    out: &mut [u8],
    written: &mut usize,
) -> u32
    ensures { output_of result written.new out.new ≡ writing form canonical.now length out.old }
{
    match etglavino::write(form, canonical, length, out) {
        Ok(len) => {
            *written = len;
            0
        }
        Err(refusal) => {
            *written = 0;
            refusal.number()
        }
    }
}

#[unsafe(no_mangle)]
pub extern "C" fn etg_replace(
    form: u32,
    text: &[u8],
    canonical: &mut [u8],
    table: &mut [u32],
    length: usize,
    nodes: usize,
    node: usize,
    new_length: &mut usize,
    new_nodes: &mut usize,
    place: &mut usize,
) -> u32
    ensures { outcome_at result place.new new_length.new new_nodes.new canonical.new table.new ≡ replacing form text.now canonical.old table.old length nodes node }
{
    let answer = etglavino::replace(form, text, canonical, table, length, nodes, node);
    hand_placed(answer, new_length, new_nodes, place)
}

#[unsafe(no_mangle)]
pub extern "C" fn etg_same(
    a: &[u8],
    a_length: usize,
    b: &[u8],
    b_length: usize,
    default_hint: &[u8],
    same: &mut u32,
) -> u32
    ensures { compared result same.new ≡ compared_of (comparing a.now a_length b.now b_length default_hint.now) }
{
    match etglavino::same(a, a_length, b, b_length, default_hint) {
        Ok(yes) => {
            if yes {
                *same = 1;
            } else {
                *same = 0;
            }
            0
        }
        Err(refusal) => {
            *same = 0;
            refusal.number()
        }
    }
}

#[unsafe(no_mangle)]
pub extern "C" fn etg_hint(
    canonical: &[u8],
    length: usize,
    table: &[u32],
    nodes: usize,
    node: usize,
    start: &mut usize,
    end: &mut usize,
) -> u32
    ensures { shown result start.new end.new ≡ shown_of (hint_part canonical.now length table.now nodes node) }
{
    let place = etglavino::hint_place(canonical, length, table, nodes, node);
    hand_place(place, start, end)
}

#[unsafe(no_mangle)]
pub extern "C" fn etg_data(
    canonical: &[u8],
    length: usize,
    table: &[u32],
    nodes: usize,
    node: usize,
    start: &mut usize,
    end: &mut usize,
) -> u32
    ensures { shown result start.new end.new ≡ shown_of (data_part canonical.now length table.now nodes node) }
{
    let place = etglavino::data_place(canonical, length, table, nodes, node);
    hand_place(place, start, end)
}

// The same with the table lent as records: `etg_read`, `etg_replace`, `etg_hint` and `etg_data` over `Record`.
#[unsafe(no_mangle)]
pub extern "C" fn etg_read_records(
    form: u32,
    source: &[u8],
    canonical: &mut [u8],
    records: &mut [Record],
    length: &mut usize,
    nodes: &mut usize,
    place: &mut usize,
) -> u32
    ensures { outcome_at result place.new length.new nodes.new canonical.new (numbers records.new) ≡ reading form source.now canonical.old (numbers records.old) }
{
    let answer = records::read(form, source, canonical, records);
    hand_placed(answer, length, nodes, place)
}

#[unsafe(no_mangle)]
pub extern "C" fn etg_replace_records(
    form: u32,
    text: &[u8],
    canonical: &mut [u8],
    records: &mut [Record],
    length: usize,
    nodes: usize,
    node: usize,
    new_length: &mut usize,
    new_nodes: &mut usize,
    place: &mut usize,
) -> u32
    ensures { outcome_at result place.new new_length.new new_nodes.new canonical.new (numbers records.new) ≡ replacing form text.now canonical.old (numbers records.old) length nodes node }
{
    let answer = records::replace(form, text, canonical, records, length, nodes, node);
    hand_placed(answer, new_length, new_nodes, place)
}

#[unsafe(no_mangle)]
pub extern "C" fn etg_hint_records(
    canonical: &[u8],
    length: usize,
    records: &[Record],
    nodes: usize,
    node: usize,
    start: &mut usize,
    end: &mut usize,
) -> u32
    ensures { shown result start.new end.new ≡ shown_of (hint_part canonical.now length (numbers records.now) nodes node) }
{
    let place = records::place(canonical, length, records, nodes, node, true);
    hand_place(place, start, end)
}

#[unsafe(no_mangle)]
pub extern "C" fn etg_data_records(
    canonical: &[u8],
    length: usize,
    records: &[Record],
    nodes: usize,
    node: usize,
    start: &mut usize,
    end: &mut usize,
) -> u32
    ensures { shown result start.new end.new ≡ shown_of (data_part canonical.now length (numbers records.now) nodes node) }
{
    let place = records::place(canonical, length, records, nodes, node, false);
    hand_place(place, start, end)
}
