// Values from their octets, and octets from values, by kind.
#![tactic(auto)]

mod floats; // floats.rt: singles and doubles
mod integers; // integers.rt: whole numbers
mod numerals; // numerals.rt: digits to the base 256

ghost use Rattle.std.specs.Prelude.{◌≡◌, ◌+◌, ◌≤◌, length};
ghost use Rattle.std.proofs.Math.Seq.{slice};
ghost use Rattle.answers.specs.Cases.{output};
ghost use Rattle.typed.specs.Typed.{kind_of, value_at};
ghost use Rattle.model.specs.Limits.{refusal_not_own};
ghost use Rattle.typed.specs.Coding.{raw_octets, putting};
ghost use Rattle.values.specs.Kinds.{coded};
ghost use Rattle.values.specs.Laid.{laid, Spells};

use answers::{Refusal, Writing};
pub use floats::double;
use typed::Value;

// Whether three octets from a place on are these.
fn spells(src: &[u8], at: usize, a: u8, b: u8, c: u8) -> bool
    requires { at + 3 ≤ length src.now }
    ensures { Spells src.now at a b c result }
{
    if src[at] != a {
        return false;
    }
    if src[at + 1] != b {
        return false;
    }
    src[at + 2] == c
}

// The kind that a hint tells.
#[derive(Clone, Copy, Debug, PartialEq, Eq)]
pub enum Kind {
    Raw,
    Single,
    Double,
    Whole,
}

// The kind that a hint tells, which stands from `start` up to `end`: `f32`, `f64` and `int`; any other is raw.
pub fn kind_of(src: &[u8], start: usize, end: usize) -> Kind
    requires { (start ≤ end) × (end ≤ length src.now) }
    ensures { coded result ≡ kind_of (slice start end src.now) }
{
    if end - start != 3 {
        return Kind::Raw;
    }
    if spells(src, start, b'f', b'3', b'2') {
        return Kind::Single;
    }
    if spells(src, start, b'f', b'6', b'4') {
        return Kind::Double;
    }
    if spells(src, start, b'i', b'n', b't') {
        return Kind::Whole;
    }
    Kind::Raw
}

// The value of the octets from `start` up to `end`, of the kind with this number: 1 `f32`, 2 `f64`, 3 `int`; with any other it is raw.
pub fn value_of(kind: u8, src: &[u8], start: usize, end: usize) -> Option<Value>
    requires { (start ≤ end) × (end ≤ length src.now) }
    ensures { result ≡ value_at kind src.now start end }
{
    match kind {
        1 => value_by(Kind::Single, src, start, end),
        2 => value_by(Kind::Double, src, start, end),
        3 => value_by(Kind::Whole, src, start, end),
        _ => value_by(Kind::Raw, src, start, end),
    }
}

// The value of the octets from `start` up to `end`, of the kind `kind`.
pub fn value_by(kind: Kind, src: &[u8], start: usize, end: usize) -> Option<Value>
    requires { (start ≤ end) × (end ≤ length src.now) }
    ensures { result ≡ value_at (coded kind) src.now start end }
{
    match kind {
        Kind::Single => floats::single(src, start, end),
        Kind::Double => floats::double(src, start, end),
        Kind::Whole => integers::whole(src, start, end),
        Kind::Raw => Some(Value::Raw { start, end }),
    }
}

// Raw octets, copied from their place.
fn put_raw(out: &mut [u8], src: &[u8], start: usize, end: usize) -> Writing
    ensures { output result out.new ≡ laid refusal_not_own (raw_octets src.now start end) out.old }
{
    if end < start {
        return Err(Refusal::NotOwn);
    }
    if src.len() < end {
        return Err(Refusal::NotOwn);
    }
    let k = end - start;
    if out.len() < k {
        return Err(Refusal::Size);
    }
    scan::copy(src, start, k, out, 0);
    Ok(k)
}

// S 10.2: the octets of a value at the front of `out`, a raw one's from `src`. In a refusal the output holds what it held; in an
// acceptance what lies past the octets written stays.
pub fn put_value(value: Value, src: &[u8], out: &mut [u8]) -> Writing
    ensures { output result out.new ≡ putting value src.now out.old }
{
    match value {
        Value::Single(x) => floats::put_single(out, x),
        Value::Double(x) => floats::put_double(out, x),
        Value::Whole(x) => integers::put_whole(out, x),
        Value::Raw { start, end } => put_raw(out, src, start, end),
    }
}
