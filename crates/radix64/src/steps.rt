// A group letter by letter, with whitespace on the way, and what comes last: the letters of no, one or two octets, pads, the closing mark.
ghost use Rattle.std.specs.Prelude.{◌≤◌, ◌<◌, ◌%◌, ◌≡◌, [], ◌∷◌, length, drop};
ghost use Rattle.model.specs.Octets.{letter, leftover};
ghost use Rattle.model.specs.Grammar.{rules};
ghost use Rattle.model.specs.Strings.{unbase};
ghost use Rattle.model.proofs.Streams.{between};
ghost use Rattle.radix64.specs.declared.steps.Group.TheVariants.{Rest};
ghost use Rattle.radix64.specs.Steps.{Closing, Letters, Groups, allowed};

use super::bits;
use octets::letter_of;
use scan::skip_at;

// A letter, a pad or the closing mark.
#[derive(Clone, Copy, Debug, PartialEq, Eq)]
pub enum Letter {
    Char { octet: u8, next: usize },
    Pad { next: usize },
    End { next: usize },
}

// The values of four letters; or, before the closing mark, the values of the letters of `len` octets.
#[derive(Clone, Copy, Debug, PartialEq, Eq)]
pub enum Group {
    Four {
        a: u8,
        b: u8,
        c: u8,
        e: u8,
        next: usize,
    },
    Rest {
        len: usize,
        a: u8,
        b: u8,
        c: u8,
        next: usize,
    },
}

// The next letter, pad or mark. Nearly always it is a letter, with no whitespace before it.
#[inline(always)]
pub fn letter_at(src: &[u8], at: usize, mark: u8) -> Option<Letter>
    requires { (at ≤ length src.now) × Closing mark }
    ensures { Letters mark src.now at result }
{
    if at < src.len() {
        let here = src[at];
        if letter_of(here) < 64 {
            return Some(Letter::Char {
                octet: here,
                next: at + 1,
            });
        }
    }
    let i = skip_at(src, at);
    let x = *src.get(i)?;
    if x == mark {
        return Some(Letter::End { next: i + 1 });
    }
    if x == b'=' {
        return Some(Letter::Pad { next: i + 1 });
    }
    if letter_of(x) >= 64 {
        return None;
    }
    Some(Letter::Char {
        octet: x,
        next: i + 1,
    })
}

// Two letters at the end.
#[inline(always)]
fn last_two(a: u8, b: u8, next: usize) -> Option<Group>
    ensures { result ≡ allowed (leftover (b % 16)) (Rest 1 a b 0 next) }
{
    if bits::leftover(b % 16) {
        return Some(Group::Rest {
            len: 1,
            a,
            b,
            c: 0,
            next,
        });
    }
    None
}

// Three letters at the end.
#[inline(always)]
fn last_three(a: u8, b: u8, c: u8, next: usize) -> Option<Group>
    ensures { result ≡ allowed (leftover (c % 4)) (Rest 2 a b c next) }
{
    if bits::leftover(c % 4) {
        return Some(Group::Rest {
            len: 2,
            a,
            b,
            c,
            next,
        });
    }
    None
}

// After three letters.
#[inline(always)]
fn group_4(src: &[u8], at: usize, mark: u8, x: u8, y: u8, z: u8) -> Option<Group>
    requires { (at ≤ length src.now) × Closing mark × (letter x < 64) × (letter y < 64) × (letter z < 64) }
    ensures { Groups mark src.now (between mark (unbase rules) (x ∷ y ∷ z ∷ []) (drop at src.now)) 3 at result }
{
    let a = letter_of(x);
    let b = letter_of(y);
    let c = letter_of(z);
    match letter_at(src, at, mark)? {
        Letter::Char { octet, next } => Some(Group::Four {
            a,
            b,
            c,
            e: letter_of(octet),
            next,
        }),
        Letter::End { next } => last_three(a, b, c, next),
        Letter::Pad { next } => match letter_at(src, next, mark)? {
            Letter::End { next: last } => last_three(a, b, c, last),
            Letter::Char { .. } => None,
            Letter::Pad { .. } => None,
        },
    }
}

// After two letters and a pad.
#[inline(always)]
fn padded(src: &[u8], at: usize, mark: u8, x: u8, y: u8) -> Option<Group>
    requires { (at ≤ length src.now) × Closing mark × (letter x < 64) × (letter y < 64) }
    ensures { Groups mark src.now (between mark (unbase rules) (x ∷ y ∷ 61 ∷ []) (drop at src.now)) 3 at result }
{
    let a = letter_of(x);
    let b = letter_of(y);
    match letter_at(src, at, mark)? {
        Letter::End { next } => last_two(a, b, next),
        Letter::Pad { next } => match letter_at(src, next, mark)? {
            Letter::End { next: last } => last_two(a, b, last),
            Letter::Char { .. } => None,
            Letter::Pad { .. } => None,
        },
        Letter::Char { .. } => None,
    }
}

// After two letters.
#[inline(always)]
fn group_3(src: &[u8], at: usize, mark: u8, x: u8, y: u8) -> Option<Group>
    requires { (at ≤ length src.now) × Closing mark × (letter x < 64) × (letter y < 64) }
    ensures { Groups mark src.now (between mark (unbase rules) (x ∷ y ∷ []) (drop at src.now)) 2 at result }
{
    match letter_at(src, at, mark)? {
        Letter::Char { octet, next } => group_4(src, next, mark, x, y, octet),
        Letter::End { next } => last_two(letter_of(x), letter_of(y), next),
        Letter::Pad { next } => padded(src, next, mark, x, y),
    }
}

// A group, or what comes last.
#[inline(always)]
pub fn group_at(src: &[u8], at: usize, mark: u8) -> Option<Group>
    requires { (at ≤ length src.now) × Closing mark }
    ensures { Groups mark src.now (between mark (unbase rules) [] (drop at src.now)) 0 at result }
{
    match letter_at(src, at, mark)? {
        Letter::Char { octet: x, next } => match letter_at(src, next, mark)? {
            Letter::Char {
                octet: y,
                next: last,
            } => group_3(src, last, mark, x, y),
            Letter::End { .. } => None,
            Letter::Pad { .. } => None,
        },
        Letter::End { next } => Some(Group::Rest {
            len: 0,
            a: 0,
            b: 0,
            c: 0,
            next,
        }),
        Letter::Pad { .. } => None,
    }
}
