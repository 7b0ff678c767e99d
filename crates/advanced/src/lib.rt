// Advanced text into canonical octets in one pass, in lent scratch of which only the front is promised.
#![tactic(auto)]

mod braces; // braces.rt: a tree in braces

ghost use Rattle.std.specs.Prelude.{◌≡◌, true, ◌+◌, ◌≤◌, ◌<◌, length, drop, get_or};
ghost use Rattle.model.specs.Grammar.{rules};
ghost use Rattle.model.specs.Decode.{decode₃};
ghost use Rattle.model.specs.Limits.{max_source};
ghost use Rattle.model.specs.Octets.{is_digit};
ghost use Rattle.model.specs.Strings.{bind, decimal, marked, after_number, simple};
ghost use Rattle.marks.specs.Decoded.{Spacious, Decodes};
ghost use Rattle.advanced.specs.Spelled.{Room, Spells};
ghost use Rattle.advanced.specs.Nodes.{Spare, HintCloses, HintSpells, Nodes};
ghost use Rattle.advanced.specs.Converted.{Converts, Wrapped, Lent};

use blocks::{frame, put_string};
use braces::{opens, tree_at};
use decimal::decimal_at;
use octets::class_of;
use sheets::notes::{enter, keep_string, leave, up_of};
use walk::{Broken, Extent, Measured};

// A string between marks, decoded; the place after it.
fn decode(src: &[u8], at: usize, out: &mut [u8], pos: usize, count: &mut usize) -> Option<usize>
    requires { (at < length src.now) × Spacious src.now (at + 1) pos (length out.old) }
    ensures { Decodes src.now (marked rules (get_or src.now at 0) (drop (at + 1) src.now)) at pos out.old out.new count.new result }
{
    // Lent again, a slice goes on in registers.
    let src = &*src;
    let b = src[at];
    if b == b'"' {
        return marks::quotes(src, at + 1, out, pos, count);
    }
    if b == b'#' {
        return marks::hex(src, at + 1, out, pos, count);
    }
    if b == b'|' {
        return marks::base(src, at + 1, b'|', out, pos, count);
    }
    None
}

// A string between marks, decoded behind room for two digits and a colon, and framed; the place after it.
fn framed(src: &[u8], at: usize, out: &mut [u8], pos: usize, end: &mut usize) -> Option<usize>
    requires { (at < length src.now) × Room src.now at pos (length out.old) }
    ensures { Spells src.now (marked rules (get_or src.now at 0) (drop (at + 1) src.now)) at pos out.old out.new end.new result }
{
    let mut n: usize = 0;
    let next = decode(src, at, out, pos + 3, &mut n)?;
    *end = frame(out, pos, n);
    Some(next)
}

// The same; a quoted string in which nothing is escaped, the commonest by far, is copied to its place at once.
fn between(src: &[u8], at: usize, out: &mut [u8], pos: usize, end: &mut usize) -> Option<usize>
    requires { (at < length src.now) × Room src.now at pos (length out.old) }
    ensures { Spells src.now (marked rules (get_or src.now at 0) (drop (at + 1) src.now)) at pos out.old out.new end.new result }
{
    if src[at] != b'"' {
        return framed(src, at, out, pos, end);
    }
    let Some(stop) = quoted::unescaped_end(src, at + 1) else {
        return framed(src, at, out, pos, end);
    };
    *end = put_string(src, at + 1, stop - at - 2, out, pos);
    Some(stop)
}

// What follows a length: a colon and as many octets, or a string between marks that has as many.
fn after_number(
    src: &[u8],
    at: usize,
    n: usize,
    out: &mut [u8],
    pos: usize,
    end: &mut usize,
) -> Option<usize>
    requires { Room src.now at pos (length out.old) }
    ensures { Spells src.now (after_number rules n (drop at src.now)) at pos out.old out.new end.new result }
{
    if at >= src.len() {
        return None;
    }
    if src[at] == b':' {
        let body = at + 1;
        if n > src.len() - body {
            return None;
        }
        *end = put_string(src, body, n, out, pos);
        return Some(body + n);
    }
    let mut m: usize = 0;
    let next = decode(src, at, out, pos + 3, &mut m)?;
    if m != n {
        return None;
    }
    *end = frame(out, pos, m);
    Some(next)
}

// A string that begins with its length.
fn counted(src: &[u8], at: usize, out: &mut [u8], pos: usize, end: &mut usize) -> Option<usize>
    requires { (at < length src.now) × Room src.now at pos (length out.old) × (is_digit (get_or src.now at 0) ≡ true) }
    ensures { Spells src.now (bind (decimal (get_or src.now at 0) (drop (at + 1) src.now)) (after_number rules)) at pos out.old out.new end.new result }
{
    let number = decimal_at(src, at)?;
    after_number(src, number.next, number.value, out, pos, end)
}

// Any simple string, written as a verbatim string; the place after it. Where it ends in `out` goes to `end`.
pub fn simple(src: &[u8], at: usize, out: &mut [u8], pos: usize, end: &mut usize) -> Option<usize>
    requires { Room src.now at pos (length out.old) }
    ensures { Spells src.now (simple rules (drop at src.now)) at pos out.old out.new end.new result }
{
    let src = &*src;
    if at >= src.len() {
        return None;
    }
    let c = class_of(src[at]);
    if c < octets::TOKEN {
        return between(src, at, out, pos, end);
    }
    if c > octets::HEX {
        return counted(src, at, out, pos, end);
    }
    let stop = scan::run_end(src, at + 1);
    *end = put_string(src, at, stop - at, out, pos);
    Some(stop)
}

// The closing bracket of a hint, with whitespace on both sides; the place after them.
fn close_hint(src: &[u8], at: usize, out: &mut [u8], pos: usize, end: &mut usize) -> Option<usize>
    requires { (at ≤ length src.now) × (pos < length out.old) }
    ensures { HintCloses src.now at pos out.old out.new end.new result }
{
    let j = scan::skip_at(src, at);
    if j >= src.len() {
        return None;
    }
    if src[j] != b']' {
        return None;
    }
    out[pos] = b']';
    *end = pos + 1;
    Some(scan::skip_at(src, j + 1))
}

// A hint, from its bracket on, with its brackets; the place where its string begins.
fn hint(src: &[u8], at: usize, out: &mut [u8], pos: usize, end: &mut usize) -> Option<usize>
    requires { (at < length src.now) × Spare src.now at pos (length out.old) }
    ensures { HintSpells src.now at pos out.old out.new end.new result }
{
    out[pos] = b'[';
    let i = scan::skip_at(src, at + 1);
    let mut e: usize = 0;
    let next = simple(src, i, out, pos + 1, &mut e)?;
    close_hint(src, next, out, e, end)
}

// A string with its hint, from the hint's bracket on; the place after it. Where its hint ends in `out`, brackets and all, goes to `mid`.
fn hinted(
    src: &[u8],
    at: usize,
    out: &mut [u8],
    pos: usize,
    mid: &mut usize,
    end: &mut usize,
) -> Option<usize>
    requires { (at < length src.now) × Spare src.now at pos (length out.old) × (get_or src.now at 0 ≡ 91) }
    ensures { Nodes src.now at pos out.old out.new mid.new end.new result }
{
    let from = hint(src, at, out, pos, mid)?;
    let behind = *mid;
    simple(src, from, out, behind, end)
}

// Where writing goes on: at the front again once more octets are written than a sheet may have.
fn wrap(end: usize) -> usize
    ensures { Wrapped end result }
{
    if end > limits::CANONICAL { 0 } else { end }
}

// The canonical octets of a text at the front of `out`, the sizes of the tree that it means, and its notes. No limit decides whether it
// means one. Once more octets are written than a sheet has, octets and notes no longer matter. With braces, which form 4 has, nothing
// is said of the notes.
pub fn convert(braces: bool, src: &[u8], out: &mut [u8], notes: &mut [usize]) -> Measured
    requires { Lent (length src.now) (length out.old) }
    ensures { Converts braces (decode₃ rules braces src.now) out.new notes.old notes.new result }
{
    let mut starts: [usize; limits::DEPTH] = [0; limits::DEPTH];
    let mut numbers: [usize; limits::DEPTH] = [0; limits::DEPTH];
    let mut at: usize = 0;
    let mut opened: usize = 0;
    let mut deepest: usize = 0;
    let mut seen: usize = 0;
    let mut size: usize = 0;
    loop {
        let i = scan::skip_at(src, at);
        if walk::closed(opened, seen) {
            if i < src.len() {
                return Err(Broken { place: 0 });
            }
            return Ok(Extent {
                len: size,
                nodes: seen,
                depth: deepest,
            });
        }
        if i >= src.len() {
            return Err(Broken { place: 0 });
        }
        let b = src[i];
        let o = wrap(size);
        if b == b'(' {
            out[o] = b'(';
            enter(&mut starts, &mut numbers, opened, o, seen);
            size += 1;
            opened += 1;
            deepest = walk::larger(deepest, opened);
            seen += 1;
            at = i + 1;
            continue;
        }
        if b == b')' {
            if opened == 0 {
                return Err(Broken { place: 0 });
            }
            opened -= 1;
            leave(notes, &starts, &numbers, opened, seen, o);
            out[o] = b')';
            size += 1;
            at = i + 1;
            continue;
        }
        if opens(braces, b) {
            let Some(inside) = tree_at(src, i, out, o) else {
                return Err(Broken { place: 0 });
            };
            deepest = walk::larger(deepest, opened + inside.sizes.depth);
            seen += inside.sizes.nodes;
            size += inside.sizes.len;
            at = inside.next;
            continue;
        }
        let mut mid: usize = 0;
        let mut end: usize = 0;
        // A call through another function would store the text's place and length again for each string.
        let after = if b == b'[' {
            hinted(src, i, out, o, &mut mid, &mut end)
        } else {
            simple(src, i, out, o, &mut end)
        };
        let Some(next) = after else {
            return Err(Broken { place: 0 });
        };
        let up = up_of(&numbers, opened);
        keep_string(notes, seen, o, mid, end, up);
        seen += 1;
        size += end - o;
        at = next;
    }
}
