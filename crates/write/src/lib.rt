// Writing: a sheet out in any of the three forms. The length is known before anything is written to the lent output, so that a
// refusal leaves it as it was.
#![tactic(auto)]

ghost use Rattle.std.specs.Prelude.{◌≡◌, ◌≤◌, ◌+◌, ◌*◌};
ghost use Rattle.model.specs.Answers.{written, writing};
ghost use Rattle.model.specs.Limits.{max_canonical};
ghost use Rattle.answers.specs.Cases.{output};
ghost use Rattle.write.specs.Sized.{Good, Roomy, sized};

use answers::{Refusal, Writing};
use writer::advanced::put_advanced;
use writer::basic::{basic_len, put_basic};

// Octets of a short sheet and of one of middle length, and scratch for form 3 of these and of any: twice as many octets, and what a
// block may overrun.
const SHORT: usize = 256;

const SHORT_SCRATCH: usize = 2 * SHORT + 64;

const MIDDLE: usize = 2048;

const MIDDLE_SCRATCH: usize = 2 * MIDDLE + 64;

const LONG_SCRATCH: usize = 2 * limits::CANONICAL + 64;

// Form 1 is the sheet itself.
fn write_canonical(canonical: &[u8], length: usize, out: &mut [u8]) -> Writing
    requires { Good canonical.now length }
    ensures { output result out.new ≡ sized (written 1 canonical.now length) out.old }
{
    if length > out.len() {
        return Err(Refusal::Size);
    }
    scan::copy(canonical, 0, length, out, 0);
    Ok(length)
}

// Form 2.
fn write_basic(canonical: &[u8], length: usize, out: &mut [u8]) -> Writing
    requires { Good canonical.now length }
    ensures { output result out.new ≡ sized (written 2 canonical.now length) out.old }
{
    let len = basic_len(length);
    if len > out.len() {
        return Err(Refusal::Size);
    }
    let part = &canonical[..length];
    put_basic(part, out);
    Ok(len)
}

// Form 3, by way of scratch: how long it is is known once it is written.
fn write_through(canonical: &[u8], length: usize, scratch: &mut [u8], out: &mut [u8]) -> Writing
    requires good { Good canonical.now length }
    requires roomy { Roomy length scratch.old }
    ensures { output result out.new ≡ sized (written 3 canonical.now length) out.old }
{
    let part = &canonical[..length];
    let len = put_advanced(part, scratch);
    if len > out.len() {
        return Err(Refusal::Size);
    }
    scan::copy(scratch, 0, len, out, 0);
    Ok(len)
}

// Form 3, by way of scratch in local space.
#[inline(never)]
fn write_sized<const SCRATCH: usize>(canonical: &[u8], length: usize, out: &mut [u8]) -> Writing
    requires good { Good canonical.now length }
    requires roomy { 2 * length + 64 ≤ SCRATCH }
    requires bounded { SCRATCH ≤ 2 * max_canonical + 64 }
    ensures { output result out.new ≡ sized (written 3 canonical.now length) out.old }
{
    let mut scratch: [u8; SCRATCH] = [0; SCRATCH];
    write_through(canonical, length, &mut scratch, out)
}

// Form 3. A short sheet does not pay for clearing the scratch of the largest.
fn write_advanced(canonical: &[u8], length: usize, out: &mut [u8]) -> Writing
    requires { Good canonical.now length }
    ensures { output result out.new ≡ sized (written 3 canonical.now length) out.old }
{
    if length <= SHORT {
        return write_sized::<SHORT_SCRATCH>(canonical, length, out);
    }
    if length <= MIDDLE {
        return write_sized::<MIDDLE_SCRATCH>(canonical, length, out);
    }
    write_sized::<LONG_SCRATCH>(canonical, length, out)
}

// The sheet in the first `length` octets, written in the form named (1 canonical, 2 basic, 3 advanced). In a refusal the output
// holds what it held; in an acceptance what lies past the octets written stays.
pub fn write(form: u32, canonical: &[u8], length: usize, out: &mut [u8]) -> Writing
    ensures { output result out.new ≡ writing form canonical.now length out.old }
{
    if form < 1 {
        return Err(Refusal::Form);
    }
    if form > 3 {
        return Err(Refusal::Form);
    }
    if lookup::sheet(canonical, length) {
        if form == 1 {
            return write_canonical(canonical, length, out);
        }
        if form == 2 {
            return write_basic(canonical, length, out);
        }
        write_advanced(canonical, length, out)
    } else {
        Err(Refusal::NotOwn)
    }
}
