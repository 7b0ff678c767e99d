// Lengths in decimal, read and written.
#![tactic(auto)]

mod digits; // digits.rt: a length written

ghost use Rattle.std.specs.Prelude.{◌≡◌, true, ◌+◌, ◌≤◌, ◌<◌, min, length, drop, get_or};
ghost use Rattle.model.specs.Limits.{max_source};
ghost use Rattle.model.specs.Octets.{is_digit};
ghost use Rattle.model.specs.Strings.{number, decimal};
ghost use Rattle.decimal.specs.Numbers.{large, Numbered, Wide};

pub use digits::put_decimal;

// As `large` in specs/Numbers has it.
const LARGE: usize = 1_000_000_000_000_000_000;

// A number and the place after it. A number beyond the source's length is none: nothing in the source is as long.
#[derive(Clone, Copy, Debug, PartialEq, Eq)]
pub struct Number {
    pub value: usize,
    pub next: usize,
}

// A value, or LARGE where it is larger: ten times that is past any source's length.
fn capped(value: usize) -> usize
    ensures { result ≡ min value large }
{
    if value > LARGE { LARGE } else { value }
}

// Digits. The value is capped before each and tested after it, so that it never wraps, however many digits there are and however
// long the source is.
pub fn number_at(src: &[u8], at: usize) -> Option<Number>
    requires { at ≤ length src.now }
    ensures { Numbered src.now (number 0 (drop at src.now)) at result }
{
    let mut value: usize = 0;
    for i in at..src.len() {
        let b = src[i];
        if b < b'0' {
            return Some(Number { value, next: i });
        }
        if b > b'9' {
            return Some(Number { value, next: i });
        }
        value = capped(value) * 10 + (b - b'0') as usize;
        if value > src.len() {
            return None;
        }
    }
    Some(Number {
        value,
        next: src.len(),
    })
}

// A decimal, whose first digit is at `at`: 0 stands alone.
pub fn decimal_at(src: &[u8], at: usize) -> Option<Number>
    requires { (at < length src.now) × (is_digit (get_or src.now at 0) ≡ true) }
    ensures { Numbered src.now (decimal (get_or src.now at 0) (drop (at + 1) src.now)) at result }
{
    if src[at] == b'0' {
        return Some(Number {
            value: 0,
            next: at + 1,
        });
    }
    number_at(src, at)
}

// How many digits a number has.
pub fn width(n: usize) -> usize
    requires { n ≤ max_source }
    ensures { Wide n result }
{
    if n < 10 {
        return 1;
    }
    if n < 100 {
        return 2;
    }
    if n < 1000 {
        return 3;
    }
    if n < 10000 {
        return 4;
    }
    5
}
