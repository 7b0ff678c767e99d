// Whole numbers in the shortest two's complement: a sign and a magnitude, of which the digits are turned over where the sign is set.
ghost use Rattle.std.specs.Prelude.{◌≡◌, ◌^◌, ◌≤◌, ◌<◌, length, pos, negsuc};
ghost use Rattle.std.proofs.Math.Option.{some};
ghost use Rattle.std.proofs.Math.Seq.{slice};
ghost use Rattle.answers.specs.Cases.{output};
ghost use Rattle.typed.specs.Octets.{shortest};
ghost use Rattle.typed.specs.Typed.{whole_of};
ghost use Rattle.typed.specs.Coding.{refusal_not_typed, more, whole_octets};
ghost use Rattle.typed.proofs.Wide.{joined};
ghost use Rattle.values.specs.Laid.{laid};

use crate::numerals::{number, put};
use answers::{Refusal, Writing};
use typed::Value;

// Whether no octet at the front can be left out.
fn is_shortest(src: &[u8], start: usize, end: usize) -> bool
    requires { (start ≤ end) × (end ≤ length src.now) }
    ensures { result ≡ shortest (slice start end src.now) }
{
    if start == end {
        return true;
    }
    let first = src[start];
    let next = start + 1;
    if next == end {
        return first != 0;
    }
    let second = src[next];
    if first == 0 {
        return second >= 128;
    }
    if first == 255 {
        return second < 128;
    }
    true
}

fn plus(m: u64) -> i64
    requires { m < 2 ^ 63 }
    ensures { result ≡ pos m }
{
    m as i64
}

// One less than minus `m`.
fn minus(m: u64) -> i64
    requires { m < 2 ^ 63 }
    ensures { result ≡ negsuc m }
{
    -1 - (m as i64)
}

pub fn whole(src: &[u8], start: usize, end: usize) -> Option<Value>
    requires { (start ≤ end) × (end ≤ length src.now) }
    ensures { result ≡ whole_of (slice start end src.now) }
{
    if end - start > 8 {
        return None;
    }
    if !is_shortest(src, start, end) {
        return None;
    }
    if start == end {
        return Some(Value::Whole(0));
    }
    if src[start] < 128 {
        let m = number(src, start, end, false);
        return Some(Value::Whole(plus(m)));
    }
    let m = number(src, start, end, true);
    Some(Value::Whole(minus(m)))
}

// How many octets a magnitude takes beside the first.
fn width(m: u64) -> usize
    requires { m < 2 ^ 63 }
    ensures { (result ≡ more m) × (result ≤ 7) }
{
    (64 - (m / 128).leading_zeros()).div_ceil(8) as usize
}

// A number's sign and magnitude.
#[derive(Clone, Copy, Debug, PartialEq, Eq)]
struct Parts {
    turn: bool,
    size: u64,
}

fn apart(x: i64) -> Parts
    ensures { (x ≡ joined result.turn result.size) × (result.size < 2 ^ 63) }
{
    if x < 0 {
        return Parts {
            turn: true,
            size: (-1 - x) as u64,
        };
    }
    Parts {
        turn: false,
        size: x as u64,
    }
}

pub fn put_whole(out: &mut [u8], x: i64) -> Writing
    ensures { output result out.new ≡ laid refusal_not_typed (some (whole_octets x)) out.old }
{
    if x == 0 {
        return Ok(0);
    }
    let p = apart(x);
    let n = p.size;
    let turn = p.turn;
    let k = width(n) + 1;
    if out.len() < k {
        return Err(Refusal::Size);
    }
    put(out, k, n, turn);
    Ok(k)
}
