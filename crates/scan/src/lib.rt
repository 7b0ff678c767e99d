// Runs of octets at a place of a source: whitespace, octets by their class, those of a token; and any run copied into lent space.
#![tactic(auto)]

ghost use Rattle.std.specs.Prelude.{◌+◌, ◌≤◌, length, take, drop};
ghost use Rattle.scan.specs.Runs.{Skipped, Ran, Reach};
ghost use Rattle.scan.specs.Writes.{Wrote};

use octets::class_of;

// The place after whitespace.
pub fn skip_at(src: &[u8], at: usize) -> usize
    requires { at ≤ length src.now }
    ensures { Skipped src.now at result }
{
    for i in at..src.len() {
        let c = class_of(src[i]);
        if c < octets::BLANK {
            return i;
        }
        if c > octets::SPACE {
            return i;
        }
    }
    src.len()
}

// The end of octets of the class `low` and above, from `at` on and before `end`: one by one.
fn class_rest(src: &[u8], at: usize, end: usize, low: u8) -> usize
    requires { (at ≤ end) × (end ≤ length src.now) }
    ensures { Reach src.now at end low result }
{
    for i in at..end {
        if class_of(src[i]) < low {
            return i;
        }
    }
    end
}

// The same, by fours, and then what is left.
pub fn class_end(src: &[u8], at: usize, end: usize, low: u8) -> usize
    requires { (at ≤ end) × (end ≤ length src.now) }
    ensures { Reach src.now at end low result }
{
    let mut i = at;
    while end - i >= 4 {
        if class_of(src[i]) < low {
            return i;
        }
        if class_of(src[i + 1]) < low {
            return i + 1;
        }
        if class_of(src[i + 2]) < low {
            return i + 2;
        }
        if class_of(src[i + 3]) < low {
            return i + 3;
        }
        i += 4;
    }
    class_rest(src, i, end, low)
}

// The end of the longest run of token octets from `at` on.
pub fn run_end(src: &[u8], at: usize) -> usize
    requires { at ≤ length src.now }
    ensures { Ran src.now at result }
{
    class_end(src, at, src.len(), octets::TOKEN)
}

// A run of octets, as they stand; the place after them.
pub fn copy(src: &[u8], from: usize, len: usize, out: &mut [u8], pos: usize) -> usize
    requires { (from + len ≤ length src.now) × (pos + len ≤ length out.old) }
    ensures { Wrote (take len (drop from src.now)) pos out.old out.new result }
{
    // std's copy is a call, and slower for runs of a few octets.
    for k in 0..len {
        out[pos + k] = src[from + k];
    }
    pos + len
}
