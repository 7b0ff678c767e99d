// The lines that are written (reference/README.md, "The file `expected`").
use crate::calls::Answer;
use cases::digest;
use std::io;

fn put<P: Print>(rt: &P, value: u64) -> io::Result<()> {
    print!(rt; " {value}")
}

fn end<P: Print>(rt: &P) -> io::Result<()> {
    println!(rt)
}

// As far as the first value.
fn begin<P: Print>(rt: &P, number: u64, name: &str, answer: Answer) -> io::Result<()> {
    print!(rt; "{number} {name}")?;
    match answer.number {
        Some(number) => put(rt, number as u64)?,
        None => print!(rt; " differs")?,
    }
    put(rt, answer.first as u64)
}

// One value.
pub fn one<P: Print>(rt: &P, number: u64, name: &str, answer: Answer) -> io::Result<()> {
    begin(rt, number, name, answer)?;
    end(rt)
}

// Two values.
pub fn two<P: Print>(rt: &P, number: u64, name: &str, answer: Answer) -> io::Result<()> {
    let second = answer.second;
    begin(rt, number, name, answer)?;
    put(rt, second as u64)?;
    end(rt)
}

// One value and an output.
pub fn output<P: Print>(
    rt: &P,
    number: u64,
    name: &str,
    answer: Answer,
    out: &[u8],
) -> io::Result<()> {
    begin(rt, number, name, answer)?;
    put(rt, digest::of_octets(out))?;
    end(rt)
}

// Two values, a sheet and its table.
pub fn sheet<P: Print>(
    rt: &P,
    number: u64,
    name: &str,
    answer: Answer,
    canonical: &[u8],
    table: &[u32],
) -> io::Result<()> {
    let second = answer.second;
    begin(rt, number, name, answer)?;
    put(rt, second as u64)?;
    put(rt, digest::of_octets(canonical))?;
    put(rt, digest::of_numbers(table))?;
    end(rt)
}

// In place of a line, where a case is not what the file format says.
pub fn malformed<P: Print>(rt: &P, number: u64) -> io::Result<()> {
    println!(rt; "case {number} is not well formed")
}
