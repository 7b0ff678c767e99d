// Cases that are run: lent buffers filled, the other arguments read, the entry called, the line written. The functions that
// answer a bool say whether the case was well formed; if not, they have written no line.
ghost use Rattle.std.specs.Prelude.{◌≡◌, length};

use crate::{calls, lines};
use cases::places;
use cases::wire::{
    Lending, lend_numbers, lend_octets, lent_numbers, lent_octets, number4, number8, octet, past,
    slice,
};
use std::io;

// The space that is lent: the largest that a case may name.
fn sheet_space() -> [u8; 16500]
    ensures { 16500 ≡ length result }
{
    [0; 16500]
}

fn out_space() -> [u8; 40000]
    ensures { 40000 ≡ length result }
{
    [0; 40000]
}

fn table_space() -> [u32; 80000]
    ensures { 80000 ≡ length result }
{
    [0; 80000]
}

// Any entry.
pub fn run<P: Print>(rt: &P, number: u64, case: &[u8]) -> io::Result<bool> {
    match octet(case, 0) {
        1 | 3 | 5 | 6 => with_table(rt, number, case),
        2 | 4 => with_octets(rt, number, case),
        _ => Ok(false),
    }
}

// An entry that is lent octets and numbers.
fn with_table<P: Print>(rt: &P, number: u64, case: &[u8]) -> io::Result<bool> {
    let mut canonical = sheet_space();
    let mut table = table_space();
    let sheet = lent_octets(case, places::first(case), &canonical);
    let rows = lent_numbers(case, places::second(case, sheet.next), &table);
    if places::last(case, rows.next) != case.len() {
        return Ok(false);
    }
    let octets = sheet.room;
    let numbers = rows.room;
    in_table(
        rt,
        number,
        case,
        sheet,
        rows,
        &mut canonical[..octets],
        &mut table[..numbers],
    )?;
    Ok(true)
}

fn in_table<P: Print>(
    rt: &P,
    number: u64,
    case: &[u8],
    sheet: Lending,
    rows: Lending,
    canonical: &mut [u8],
    table: &mut [u32],
) -> io::Result<()> {
    lend_octets(case, sheet, canonical);
    lend_numbers(case, rows, table);
    match octet(case, 0) {
        1 => read(rt, number, case, canonical, table),
        3 => replace(rt, number, case, rows.next, canonical, table),
        5 => hint(rt, number, case, sheet.next, rows.next, canonical, table),
        _ => data(rt, number, case, sheet.next, rows.next, canonical, table),
    }
}

// An entry that is lent octets twice.
fn with_octets<P: Print>(rt: &P, number: u64, case: &[u8]) -> io::Result<bool> {
    let mut canonical = sheet_space();
    let mut out = out_space();
    let one = lent_octets(case, places::first(case), &canonical);
    let other = lent_octets(case, places::second(case, one.next), &out);
    if places::last(case, other.next) != case.len() {
        return Ok(false);
    }
    let left = one.room;
    let right = other.room;
    if right > places::most(case) {
        return Ok(false);
    }
    in_octets(
        rt,
        number,
        case,
        one,
        other,
        &mut canonical[..left],
        &mut out[..right],
    )?;
    Ok(true)
}

fn in_octets<P: Print>(
    rt: &P,
    number: u64,
    case: &[u8],
    one: Lending,
    other: Lending,
    canonical: &mut [u8],
    out: &mut [u8],
) -> io::Result<()> {
    lend_octets(case, one, canonical);
    lend_octets(case, other, out);
    match octet(case, 0) {
        2 => write(rt, number, case, one.next, canonical, out),
        _ => same(rt, number, case, one.next, other.next, canonical, out),
    }
}

fn read<P: Print>(
    rt: &P,
    number: u64,
    case: &[u8],
    canonical: &mut [u8],
    table: &mut [u32],
) -> io::Result<()> {
    let answer = calls::read(number4(case, 1), slice(case, 5), canonical, table);
    lines::sheet(rt, number, "read", answer, canonical, table)
}

fn write<P: Print>(
    rt: &P,
    number: u64,
    case: &[u8],
    at: usize,
    canonical: &[u8],
    out: &mut [u8],
) -> io::Result<()> {
    let answer = calls::write(number4(case, 1), canonical, number8(case, at), out);
    lines::output(rt, number, "write", answer, out)
}

fn replace<P: Print>(
    rt: &P,
    number: u64,
    case: &[u8],
    at: usize,
    canonical: &mut [u8],
    table: &mut [u32],
) -> io::Result<()> {
    let length = number8(case, at);
    let nodes = number8(case, past(case, at, 8));
    let node = number8(case, past(case, at, 16));
    let form = number4(case, 1);
    let text = slice(case, 5);
    let answer = calls::replace(form, text, canonical, table, length, nodes, node);
    lines::sheet(rt, number, "replace", answer, canonical, table)
}

fn same<P: Print>(
    rt: &P,
    number: u64,
    case: &[u8],
    left_at: usize,
    right_at: usize,
    left: &[u8],
    right: &[u8],
) -> io::Result<()> {
    let default_hint = slice(case, past(case, right_at, 8));
    let left_length = number8(case, left_at);
    let right_length = number8(case, right_at);
    let answer = calls::same(left, left_length, right, right_length, default_hint);
    lines::one(rt, number, "same", answer)
}

fn hint<'a, P: Print>(
    rt: &P,
    number: u64,
    case: &'a [u8],
    length_at: usize,
    at: usize,
    canonical: &'a [u8],
    table: &[u32],
) -> io::Result<()> {
    let length = number8(case, length_at);
    let nodes = number8(case, at);
    let node = number8(case, past(case, at, 8));
    let default_hint = slice(case, past(case, at, 16));
    let answer = calls::hint(canonical, length, table, nodes, node, default_hint);
    lines::two(rt, number, "hint", answer)
}

fn data<P: Print>(
    rt: &P,
    number: u64,
    case: &[u8],
    length_at: usize,
    at: usize,
    canonical: &[u8],
    table: &[u32],
) -> io::Result<()> {
    let length = number8(case, length_at);
    let nodes = number8(case, at);
    let node = number8(case, past(case, at, 8));
    let answer = calls::data(canonical, length, table, nodes, node);
    lines::two(rt, number, "data", answer)
}
