// Singles and doubles: the bits as a number, of which an exponent's field of all ones is refused.
ghost use Rattle.std.specs.Prelude.{◌≡◌, ◌≤◌, length};
ghost use Rattle.std.proofs.Math.Seq.{slice};
ghost use Rattle.std.specs.Float.{binary32, binary64};
ghost use Rattle.answers.specs.Cases.{output};
ghost use Rattle.typed.specs.Typed.{single_of, double_of};
ghost use Rattle.typed.specs.Coding.{refusal_not_typed, float_octets};
ghost use Rattle.values.specs.Laid.{laid};

use crate::numerals::{number, put};
use answers::{Refusal, Writing};
use typed::Value;

pub fn single(src: &[u8], start: usize, end: usize) -> Option<Value>
    requires { (start ≤ end) × (end ≤ length src.now) }
    ensures { result ≡ single_of (slice start end src.now) }
{
    if end - start != 4 {
        return None;
    }
    let b = number(src, start, end, false);
    if b % 0x8000_0000 >= 0x7f80_0000 {
        return None;
    }
    Some(Value::Single(f32::from_bits(b as u32)))
}

pub fn double(src: &[u8], start: usize, end: usize) -> Option<Value>
    requires { (start ≤ end) × (end ≤ length src.now) }
    ensures { result ≡ double_of (slice start end src.now) }
{
    if end - start != 8 {
        return None;
    }
    let b = number(src, start, end, false);
    if b % 0x8000_0000_0000_0000 >= 0x7ff0_0000_0000_0000 {
        return None;
    }
    Some(Value::Double(f64::from_bits(b)))
}

pub fn put_single(out: &mut [u8], x: f32) -> Writing
    ensures { output result out.new ≡ laid refusal_not_typed (float_octets binary32 4 x) out.old }
{
    if x != x {
        return Err(Refusal::NotTyped);
    }
    let b = f32::to_bits(x) as u64;
    if b % 0x8000_0000 >= 0x7f80_0000 {
        return Err(Refusal::NotTyped);
    }
    if out.len() < 4 {
        return Err(Refusal::Size);
    }
    put(out, 4, b, false);
    Ok(4)
}

pub fn put_double(out: &mut [u8], x: f64) -> Writing
    ensures { output result out.new ≡ laid refusal_not_typed (float_octets binary64 8 x) out.old }
{
    if x != x {
        return Err(Refusal::NotTyped);
    }
    let b = f64::to_bits(x);
    if b % 0x8000_0000_0000_0000 >= 0x7ff0_0000_0000_0000 {
        return Err(Refusal::NotTyped);
    }
    if out.len() < 8 {
        return Err(Refusal::Size);
    }
    put(out, 8, b, false);
    Ok(8)
}
