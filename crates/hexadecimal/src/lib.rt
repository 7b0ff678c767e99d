// Hexadecimal strings: a pair of digits at a place, and the value of a digit.
#![tactic(auto)]

ghost use Rattle.std.specs.Prelude.{◌≤◌, ◌<◌, length};
ghost use Rattle.model.specs.Octets.{hexval};
ghost use Rattle.hexadecimal.specs.Pairs.{Pairs, Digit};

use octets::hex_of;
use scan::skip_at;

// An octet, or the closing mark.
#[derive(Clone, Copy, Debug, PartialEq, Eq)]
pub enum Pair {
    Two { octet: u8, next: usize },
    Hash { next: usize },
}

// The next octet, with whitespace on the way, or the end.
pub fn pair_at(src: &[u8], at: usize) -> Option<Pair>
    requires { at ≤ length src.now }
    ensures { Pairs src.now at result }
{
    let i = skip_at(src, at);
    let a = *src.get(i)?;
    if a == b'#' {
        return Some(Pair::Hash { next: i + 1 });
    }
    let h = hex_of(a)?;
    let j = skip_at(src, i + 1);
    let l = hex_of(*src.get(j)?)?;
    Some(Pair::Two {
        octet: h * 16 + l,
        next: j + 1,
    })
}

// The value of a digit, with no branch: a letter's low four bits are 9 less than its value.
pub fn value(b: u8) -> u8
    requires { hexval b < 16 }
    ensures { Digit b result }
{
    b % 16 + b / 64 * 9
}
