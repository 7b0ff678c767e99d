// Form 2: padded base-64 between braces.
ghost use Rattle.std.specs.Prelude.{◌≡◌, ◌+◌, ◌*◌, ◌-◌, ◌/◌, ◌≤◌, ◌<◌, length, drop, get_or};
ghost use Rattle.model.specs.Limits.{max_canonical};
ghost use Rattle.model.specs.Answers.{the};
ghost use Rattle.model.specs.Decode.{decode₁};
ghost use Rattle.model.specs.Write.{base_all, basic};
ghost use Rattle.letters.specs.Groups.{letters_of};
ghost use Rattle.scan.specs.Writes.{Wrote};
ghost use Rattle.writer.specs.Sheets.{Sheet, quartet};

use letters::letters_of;

// How many octets form 2 of n octets has.
pub fn basic_len(n: usize) -> usize
    requires { n ≤ max_canonical }
    ensures { result ≡ (n + 2) / 3 * 4 + 2 }
{
    (n + 2) / 3 * 4 + 2
}

// Four letters; the place after them.
fn put_four(group: [u8; 4], out: &mut [u8], pos: usize) -> usize
    requires { pos + 4 ≤ length out.old }
    ensures { Wrote (quartet group) pos out.old out.new result }
{
    out[pos] = group[0];
    out[pos + 1] = group[1];
    out[pos + 2] = group[2];
    out[pos + 3] = group[3];
    pos + 4
}

// A group of three octets.
fn put_group(src: &[u8], at: usize, out: &mut [u8], pos: usize) -> usize
    requires { (3 ≤ length src.now - at) × (pos + 4 ≤ length out.old) }
    ensures { Wrote (letters_of (get_or src.now at 0) (get_or src.now (at + 1) 0) (get_or src.now (at + 2) 0)) pos out.old out.new result }
{
    put_four(letters_of([src[at], src[at + 1], src[at + 2]]), out, pos)
}

// What is left after whole groups, padded.
fn put_rest(src: &[u8], at: usize, out: &mut [u8], pos: usize) -> usize
    requires at_in_bounds { (at ≤ length src.now) × (length src.now - at < 3) }
    requires src_in_bounds { pos + length (base_all (drop at src.now)) ≤ length out.old }
    ensures { Wrote (base_all (drop at src.now)) pos out.old out.new result }
{
    let left = src.len() - at;
    if left == 0 {
        return pos;
    }
    if left == 1 {
        let q = letters_of([src[at], 0, 0]);
        return put_four([q[0], q[1], b'=', b'='], out, pos);
    }
    let q = letters_of([src[at], src[at + 1], 0]);
    put_four([q[0], q[1], q[2], b'='], out, pos)
}

// Base-64 of all octets.
fn put_letters(src: &[u8], out: &mut [u8], pos: usize) -> usize
    requires { pos + length (base_all src.now) ≤ length out.old }
    ensures { Wrote (base_all src.now) pos out.old out.new result }
{
    let mut i: usize = 0;
    let mut o = pos;
    // A `for` would count groups, and have each group's place and that of the rest by a product: no plainer.
    while src.len() - i >= 3 {
        o = put_group(src, i, out, o);
        i += 3;
    }
    put_rest(src, i, out, o)
}

// Form 2 of a sheet; the place after it.
pub fn put_basic(src: &[u8], out: &mut [u8]) -> usize
    requires sheet { Sheet src.now }
    requires src_in_bounds { length (basic (the (decode₁ src.now))) ≤ length out.old }
    ensures { Wrote (basic (the (decode₁ src.now))) 0 out.old out.new result }
{
    out[0] = b'{';
    let o = put_letters(src, out, 1);
    out[o] = b'}';
    o + 1
}
