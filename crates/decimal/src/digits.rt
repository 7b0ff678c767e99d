// A length written in decimal, by comparing and subtracting: nothing is divided.
ghost use Rattle.std.specs.Prelude.{◌≡◌, ◌∷◌, [], ◌+◌, ◌*◌, ◌≤◌, ◌<◌, length};
ghost use Rattle.model.specs.Limits.{max_source};
ghost use Rattle.model.specs.Tree.{digits};
ghost use Rattle.scan.specs.Writes.{Wrote};
ghost use Rattle.decimal.specs.Places.{Split, Took, Led, ending};

use crate::width;

// How often a power of ten was taken away from a number, and what is left of it.
#[derive(Clone, Copy)]
pub struct Part {
    pub digit: usize,
    pub left: usize,
}

// `times` the power, which is `much`, taken away if it is there.
fn take(part: Part, times: usize, much: usize) -> Part
    requires { part.digit + times ≤ 16 }
    ensures { Took part times much result }
{
    if part.left < much {
        return part;
    }
    Part {
        digit: part.digit + times,
        left: part.left - much,
    }
}

// A number's digit at a power of ten, and what is left: four comparisons, whatever the digit.
fn digit_at(n: usize, power: usize) -> Part
    requires { (n < 10 * power) × (power ≤ 10000) }
    ensures { Split n power 1 result }
{
    let none = Part { digit: 0, left: n };
    let eight = take(none, 8, 8 * power);
    let four = take(eight, 4, 4 * power);
    let two = take(four, 2, 2 * power);
    take(two, 1, power)
}

// The digit at a power of ten, written; what is left.
fn put_digit(n: usize, power: usize, out: &mut [u8], pos: usize) -> usize
    requires { (n < 10 * power) × (power ≤ 10000) × (pos < length out.old) }
    ensures { Led n power pos out.old out.new result }
{
    let part = digit_at(n, power);
    out[pos] = b'0' + part.digit as u8;
    part.left
}

// Two digits; the place after them.
fn put_two(n: usize, out: &mut [u8], pos: usize) -> usize
    requires { (n < 100) × (pos + 2 ≤ length out.old) }
    ensures { Wrote (ending (10 ∷ []) n) pos out.old out.new result }
{
    let left = put_digit(n, 10, out, pos);
    out[pos + 1] = b'0' + left as u8;
    pos + 2
}

// Three to five digits; the place after them. Such lengths are rare: a loop keeps the code short.
fn put_more(n: usize, out: &mut [u8], pos: usize) -> usize
    requires { (100 ≤ n) × (n ≤ max_source) × (pos + length (digits n) ≤ length out.old) }
    ensures { Wrote (digits n) pos out.old out.new result }
{
    let powers: [usize; 4] = [10, 100, 1000, 10000];
    let mut left = n;
    let mut i = pos;
    for k in (0..width(n) - 1).rev() {
        left = put_digit(left, powers[k], out, i);
        i += 1;
    }
    out[i] = b'0' + left as u8;
    i + 1
}

// The digits of a number; the place after them.
pub fn put_decimal(n: usize, out: &mut [u8], pos: usize) -> usize
    requires { (n ≤ max_source) × (pos + length (digits n) ≤ length out.old) }
    ensures { Wrote (digits n) pos out.old out.new result }
{
    if n < 10 {
        out[pos] = b'0' + n as u8;
        return pos + 1;
    }
    if n < 100 {
        return put_two(n, out, pos);
    }
    put_more(n, out, pos)
}
