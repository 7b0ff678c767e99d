// Form 3 at the front of scratch: one pass over the lexemes. A space is due before an element that is not the first of its list.
ghost use Rattle.std.specs.Prelude.{◌+◌, ◌≤◌, ◌<◌, length};
ghost use Rattle.model.specs.Answers.{the};
ghost use Rattle.model.specs.Decode.{decode₁};
ghost use Rattle.model.specs.Lexemes.{opening, atom, hinting};
ghost use Rattle.model.specs.Write.{shown, advanced};
ghost use Rattle.blocks.specs.Fronts.{Front};
ghost use Rattle.spelling.specs.Spelled.{cut};
ghost use Rattle.writer.specs.Sheets.{Sheet, Strings};
ghost use Rattle.writer.specs.Elements.{gap, bracketed, spelled_one};

use sheets::places::{after_hint, end_of, start_of, string_at};
use spelling::put_spelled;

// What stands before an element; the place after it. A space is always put, and counts where it is due.
fn put_gap(due: bool, out: &mut [u8], pos: usize) -> usize
    requires { pos < length out.old }
    ensures { Front (gap due) pos out.old out.new result }
{
    out[pos] = b' ';
    if due { pos + 1 } else { pos }
}

// An opening parenthesis.
fn put_open(due: bool, out: &mut [u8], pos: usize) -> usize
    requires { pos + length (spelled_one due opening) + 16 ≤ length out.old }
    ensures { Front (spelled_one due opening) pos out.old out.new result }
{
    let o = put_gap(due, out, pos);
    out[o] = b'(';
    o + 1
}

// A string.
fn put_plain(src: &[u8], due: bool, start: usize, end: usize, out: &mut [u8], pos: usize) -> usize
    requires start_le_end { (start ≤ end) × (end ≤ length src.now) }
    requires end_in_bounds { pos + length (spelled_one due (atom (cut src.now start end))) + 16 ≤ length out.old }
    ensures { Front (spelled_one due (atom (cut src.now start end))) pos out.old out.new result }
{
    let o = put_gap(due, out, pos);
    put_spelled(src, start, end, out, o)
}

// A hint, in brackets.
fn put_hint(src: &[u8], start: usize, end: usize, out: &mut [u8], pos: usize) -> usize
    requires start_le_end { (start ≤ end) × (end ≤ length src.now) }
    requires end_in_bounds { pos + length (shown (cut src.now start end)) + 18 ≤ length out.old }
    ensures { Front (bracketed (cut src.now start end)) pos out.old out.new result }
{
    out[pos] = b'[';
    let o = put_spelled(src, start, end, out, pos + 1);
    out[o] = b']';
    o + 1
}

// A string whose hint stands from `from` to `to`.
fn put_hinted(
    src: &[u8],
    due: bool,
    from: usize,
    to: usize,
    start: usize,
    end: usize,
    out: &mut [u8],
    pos: usize,
) -> usize
    requires strings { Strings src.now from to start end }
    requires end_in_bounds { pos + length (spelled_one due (hinting (cut src.now from to) (cut src.now start end))) + 16 ≤ length out.old }
    ensures { Front (spelled_one due (hinting (cut src.now from to) (cut src.now start end))) pos out.old out.new result }
{
    let o = put_gap(due, out, pos);
    let p = put_hint(src, from, to, out, o);
    put_spelled(src, start, end, out, p)
}

// Form 3 of a sheet; the place after it.
pub fn put_advanced(src: &[u8], out: &mut [u8]) -> usize
    requires sheet { Sheet src.now }
    requires src_in_bounds { length (advanced (the (decode₁ src.now))) + 16 ≤ length out.old }
    ensures { Front (advanced (the (decode₁ src.now))) 0 out.old out.new result }
{
    let mut at: usize = 0;
    let mut o: usize = 0;
    let mut due = false;
    while at < src.len() {
        if let Some(span) = string_at(src, at) {
            let end = end_of(span);
            o = put_plain(src, due, start_of(span), end, out, o);
            due = true;
            at = end;
            continue;
        }
        let b = src[at];
        if b == b'(' {
            o = put_open(due, out, o);
            due = false;
            at += 1;
            continue;
        }
        if b == b')' {
            out[o] = b')';
            o += 1;
            due = true;
            at += 1;
            continue;
        }
        // A sheet has no lexeme but a string with a hint here, so that none of these returns is taken.
        if b != b'[' {
            return o;
        }
        let Some(hint) = string_at(src, at + 1) else {
            return o;
        };
        let to = end_of(hint);
        let Some(data) = after_hint(src, to) else {
            return o;
        };
        let end = end_of(data);
        o = put_hinted(src, due, start_of(hint), to, start_of(data), end, out, o);
        due = true;
        at = end;
    }
    o
}
