// How form 3 spells a string: as a token where its octets make one, else quoted where all are printable, else in hexadecimal.
// The spelling goes to the front of scratch, so that octets are copied in blocks.
#![tactic(auto)]

ghost use Rattle.std.specs.Prelude.{◌≡◌, ◌∷◌, [], ◌+◌, ◌≤◌, ◌<◌, length};
ghost use Rattle.base.specs.Choice.{among, every};
ghost use Rattle.model.specs.Write.{quote_all, hex_digit, hex_all, shown};
ghost use Rattle.blocks.specs.Fronts.{Front};
ghost use Rattle.spelling.specs.Spelled.{cut, framed, hex_pair, TokenEnd, Escaping, Quotable};

use octets::class_of;
use scan::class_end;

// As far as the octets make a token; the start where none begins.
fn token_end(src: &[u8], start: usize, end: usize) -> usize
    requires { (start < end) × (end ≤ length src.now) }
    ensures { TokenEnd src.now start end result }
{
    let c = class_of(src[start]);
    if c < octets::TOKEN {
        return start;
    }
    if c > octets::HEX {
        return start;
    }
    class_end(src, start + 1, end, octets::TOKEN)
}

// Whether all octets are printable.
fn printable(src: &[u8], start: usize, end: usize) -> bool
    requires { (start ≤ end) × (end ≤ length src.now) }
    ensures { result ≡ every (among 32 126) (cut src.now start end) }
{
    src[start..end].iter().all(|b| b' ' <= *b && *b <= b'~')
}

// Two octets; the place after them.
fn put_two(a: u8, b: u8, out: &mut [u8], pos: usize) -> usize
    requires { pos + 2 ≤ length out.old }
    ensures { Front (a ∷ b ∷ []) pos out.old out.new result }
{
    out[pos] = a;
    out[pos + 1] = b;
    pos + 2
}

// Octets with a backslash where one is due, as at the first of them; what stands between is copied.
fn put_escaped(src: &[u8], from: usize, end: usize, out: &mut [u8], pos: usize) -> usize
    requires escaping { Escaping src.now from end }
    requires end_in_bounds { pos + length (quote_all (cut src.now from end)) + 16 ≤ length out.old }
    ensures { Front (quote_all (cut src.now from end)) pos out.old out.new result }
{
    let mut i = from;
    let mut o = pos;
    while i < end {
        let p = put_two(b'\\', src[i], out, o);
        let next = i + 1;
        let stop = class_end(src, next, end, octets::SPACE);
        o = blocks::copy(src, next, stop - next, out, p);
        i = stop;
    }
    o
}

// What stands between quotation marks. Octets up to `from` stand for themselves.
fn put_octets(
    src: &[u8],
    start: usize,
    from: usize,
    end: usize,
    out: &mut [u8],
    pos: usize,
) -> usize
    requires quotable { Quotable src.now start from end }
    requires end_in_bounds { pos + length (quote_all (cut src.now start end)) + 16 ≤ length out.old }
    ensures { Front (quote_all (cut src.now start end)) pos out.old out.new result }
{
    let o = blocks::copy(src, start, from - start, out, pos);
    put_escaped(src, from, end, out, o)
}

// Octets between quotation marks.
fn put_quoted(
    src: &[u8],
    start: usize,
    from: usize,
    end: usize,
    out: &mut [u8],
    pos: usize,
) -> usize
    requires quotable { Quotable src.now start from end }
    requires end_in_bounds { pos + length (quote_all (cut src.now start end)) + 18 ≤ length out.old }
    ensures { Front (framed 34 (quote_all (cut src.now start end))) pos out.old out.new result }
{
    out[pos] = b'"';
    let o = put_octets(src, start, from, end, out, pos + 1);
    out[o] = b'"';
    o + 1
}

// A hexadecimal digit, in lower case.
fn hex_digit(n: u8) -> u8
    requires { n < 16 }
    ensures { result ≡ hex_digit n }
{
    if n < 10 { b'0' + n } else { 87 + n }
}

// The two digits of an octet.
fn put_pair(b: u8, out: &mut [u8], pos: usize) -> usize
    requires { pos + 2 ≤ length out.old }
    ensures { Front (hex_pair b) pos out.old out.new result }
{
    put_two(hex_digit(b / 16), hex_digit(b % 16), out, pos)
}

// The digits of octets.
fn put_pairs(src: &[u8], start: usize, end: usize, out: &mut [u8], pos: usize) -> usize
    requires start_le_end { (start ≤ end) × (end ≤ length src.now) }
    requires end_in_bounds { pos + length (hex_all (cut src.now start end)) + 16 ≤ length out.old }
    ensures { Front (hex_all (cut src.now start end)) pos out.old out.new result }
{
    let mut o = pos;
    for i in start..end {
        o = put_pair(src[i], out, o);
    }
    o
}

// Octets in hexadecimal, between number signs.
fn put_hexadecimal(src: &[u8], start: usize, end: usize, out: &mut [u8], pos: usize) -> usize
    requires start_le_end { (start ≤ end) × (end ≤ length src.now) }
    requires end_in_bounds { pos + length (hex_all (cut src.now start end)) + 18 ≤ length out.old }
    ensures { Front (framed 35 (hex_all (cut src.now start end))) pos out.old out.new result }
{
    out[pos] = b'#';
    let o = put_pairs(src, start, end, out, pos + 1);
    out[o] = b'#';
    o + 1
}

// The spelling; the place after it. Up to 15 octets behind it are overwritten.
pub fn put_spelled(src: &[u8], start: usize, end: usize, out: &mut [u8], pos: usize) -> usize
    requires start_le_end { (start ≤ end) × (end ≤ length src.now) }
    requires end_in_bounds { pos + length (shown (cut src.now start end)) + 16 ≤ length out.old }
    ensures { Front (shown (cut src.now start end)) pos out.old out.new result }
{
    if start >= end {
        return put_two(b'"', b'"', out, pos);
    }
    let token = token_end(src, start, end);
    if token >= end {
        return blocks::copy(src, start, end - start, out, pos);
    }
    let from = class_end(src, token, end, octets::SPACE);
    if printable(src, from, end) {
        return put_quoted(src, start, from, end, out, pos);
    }
    put_hexadecimal(src, start, end, out, pos)
}
