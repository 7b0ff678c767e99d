// Standard input to its end, or as much of it as there is space for. A read that fails is no end.
ghost use Rattle.std.specs.Prelude.{IfOk};
ghost use Rattle.io.specs.Counts.{IsPrefixLen};

use std::io;
use std::io::Read;

// How many reads may fail before the input counts as failed: a signal interrupts a read that has moved nothing.
const TRIES: usize = 16;

// How many octets it put at the front.
pub fn read<R: Read>(from: &mut R, source: &mut [u8]) -> io::Result<usize>
    ensures { IfOk result (λ octets. IsPrefixLen octets source.new) }
{
    let mut octets: usize = 0;
    let mut tries = TRIES;
    while octets < source.len() {
        match from.read(&mut source[octets..]) {
            Ok(0) => break,
            Ok(step) => octets += step,
            Err(error) => {
                if tries == 0 {
                    return Err(error);
                }
                tries -= 1;
            }
        }
    }
    Ok(octets)
}
