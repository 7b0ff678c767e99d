// Advanced text from standard input, its canonical octets to standard output; or `refused N` and a line feed. Where a read of
// standard input fails, `read failed` and a line feed.
#![tactic(auto)]

mod input;

use std::io;

// One octet more than a source may have, so that a longer one is refused.
const MOST: usize = limits::SOURCE + 1;

// Of its own table, which has 2,048 records.
const NUMBERS: usize = 2048 * limits::WIDTH;

fn refuse<P: Print>(rt: &P, number: u32) -> io::Result<()> {
    println!(rt; "refused {number}")
}

fn show<P: Print>(rt: &P, canonical: &[u8], length: usize) -> io::Result<()> {
    if length <= canonical.len() {
        rt.write_all(&canonical[..length])?;
    }
    Ok(())
}

fn answer<P: Print>(rt: &P, source: &[u8]) -> io::Result<()> {
    let mut canonical: [u8; limits::CANONICAL] = [0; limits::CANONICAL];
    let mut table: [u32; NUMBERS] = [0; NUMBERS];
    match reader::read(3, source, &mut canonical, &mut table) {
        Ok(sizes) => show(rt, &canonical, sizes.length),
        Err(refusal) => refuse(rt, refusal.number()),
    }
}

fn main(rt: HostRuntime) -> io::Result<()> {
    let mut source: [u8; MOST] = [0; MOST];
    match input::read(&mut rt.stdin(), &mut source) {
        Ok(octets) => answer(&rt, &source[..octets]),
        // A text that was cut off may itself be a whole one, so nothing is shown of it.
        Err(_) => println!(rt; "read failed"),
    }
}
