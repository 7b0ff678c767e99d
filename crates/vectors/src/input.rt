// Octets of the cases file, as they come in.
ghost use Rattle.std.specs.Prelude.{IfOk};
ghost use Rattle.io.specs.Counts.{IsPrefixLen};

use std::io;
use std::io::Read;

// Reads until `space` is full or the input ends: how many octets it put at the front.
pub fn fill<R: Read>(from: &mut R, space: &mut [u8]) -> io::Result<usize>
    ensures { IfOk result (λ octets. IsPrefixLen octets space.new) }
{
    let mut octets: usize = 0;
    while octets < space.len() {
        let step = from.read(&mut space[octets..])?;
        if step == 0 {
            break;
        }
        octets += step;
    }
    Ok(octets)
}
