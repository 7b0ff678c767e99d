// The library's answers to the cases of the reference program, a line for each. The cases come from standard input, and the
// file `stdout` is what the reference program expects.
#![tactic(auto)]

mod calls;
mod input;
mod lines;
mod runs;

ghost use Rattle.std.specs.Prelude.{◌≡◌, length};

use cases::wire::size;
use std::io;
use std::io::Read;

// More cases than any corpus has: nothing says that an input ends.
const MOST: u64 = 1000000000;

// A case whose size has been read, into room of that size; false where it is not well formed.
fn sized<R: Read, P: Print>(
    from: &mut R,
    rt: &P,
    number: u64,
    case: &mut [u8],
) -> io::Result<bool> {
    if input::fill(from, case)? < case.len() {
        return Ok(false);
    }
    runs::run(rt, number, case)
}

// The next case; false where there is none, or none that is well formed.
fn next<R: Read, P: Print>(from: &mut R, rt: &P, number: u64, case: &mut [u8]) -> io::Result<bool> {
    let mut head: [u8; 4] = [0; 4];
    let got = input::fill(from, &mut head)?;
    if got == 0 {
        return Ok(false);
    }
    let size = size(&head[..got], case);
    if sized(from, rt, number, &mut case[..size])? {
        return Ok(true);
    }
    lines::malformed(rt, number)?;
    Ok(false)
}

fn all<R: Read, P: Print>(from: &mut R, rt: &P, case: &mut [u8]) -> io::Result<()> {
    for number in 0..MOST {
        if !next(from, rt, number, case)? {
            break;
        }
    }
    Ok(())
}

// More than any case has.
fn case_space() -> [u8; 200000]
    ensures { 200000 ≡ length result }
{
    [0; 200000]
}

fn main(rt: HostRuntime) -> io::Result<()> {
    let mut case = case_space();
    all(&mut rt.stdin(), &rt, &mut case)
}
