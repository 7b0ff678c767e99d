// Hours in whole quarters: the count that a double is, the double that a count is, and the total of a line.
#![tactic(auto)]

ghost use Rattle.std.specs.Prelude.{◌≡◌, ◌*◌, ◌^◌, ◌<◌};
ghost use Rattle.typed.specs.Quarters.{count_of, counted, quarters_of, quarter_bits, hours_of, total_by};
ghost use Rattle.typed.specs.Cases.{totalled};
ghost use Rattle.typed.specs.Asked.{totalling};

use answers::Refusal;
use typed::{Line, Total, Totalling};

// One more than the largest number of 52 bits.
const DIGITS: u64 = 0x10_0000_0000_0000;

// The quarters of a pattern: 53 digits of which all but the highest seven or fewer must be 0.
fn count_bits(b: u64) -> Option<u32>
    ensures { result ≡ count_of b }
{
    if b == 0 {
        return Some(0);
    }
    let e = b / DIGITS;
    if e < 1021 {
        return None;
    }
    if e > 1027 {
        return None;
    }
    let m = DIGITS + b % DIGITS;
    let k = 1073 - e;
    let q = m >> k;
    if q > 96 {
        return None;
    }
    if q << k != m {
        return None;
    }
    Some(q as u32)
}

// The quarters of a double.
fn count(x: f64) -> Option<u32>
    ensures { result ≡ counted x }
{
    if x != x {
        return None;
    }
    count_bits(f64::to_bits(x))
}

// The quarters of a line. Inlined: with a call `etg_total` takes 56 octets of stack, and 32 so.
#[inline(always)]
pub fn quarters_of(line: Line) -> Option<u32>
    ensures { result ≡ quarters_of line }
{
    let a = count(line.ordinary)?;
    let b = count(line.night)?;
    let c = count(line.holiday)?;
    Some(a + b + c)
}

// The bits of the double that is so many quarters.
fn bits_of(n: u32) -> u64
    ensures { (result ≡ quarter_bits n) × (result < 1074 * 2 ^ 52) }
{
    if n == 0 {
        return 0;
    }
    let m = n as u64;
    let k = m.leading_zeros() - 11;
    (1072 - k as u64) * DIGITS + (m << k)
}

// So many quarters: the count, and the double that is a quarter of it.
pub fn total_by(n: u32) -> Total
    ensures { result ≡ total_by n }
{
    Total {
        quarters: n,
        hours: f64::from_bits(bits_of(n)),
    }
}

// S 10.5: the total of a line that the caller made up.
pub fn total(line: Line) -> Totalling
    ensures { totalled result ≡ totalling line }
{
    match quarters_of(line) {
        Some(n) => Ok(total_by(n)),
        None => Err(Refusal::NotLine),
    }
}
