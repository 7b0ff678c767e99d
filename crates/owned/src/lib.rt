// Octets gone through beside the notes that records claim: whether each is that of the node that is met. Past a string without a hint the
// next place is the one that the note claims, once it is known to be right: it is there before the octets are read.
#![tactic(auto)]

ghost use Rattle.std.specs.Prelude.{◌≡◌, ◌≤◌, ◌<◌, length, get_or, leb, eqb};
ghost use Rattle.base.specs.Choice.{both};
ghost use Rattle.model.specs.Limits.{max_source};
ghost use Rattle.tables.specs.Told.{parent_part};
ghost use Rattle.owned.specs.Owned.{Checkable, Checked};
ghost use Rattle.owned.specs.Going.{Closable, Closes, Meetable, Near, Begun, Unread, Hints};

use sheets::notes::{LIST, THIRD, TOP};
use sheets::places::{SHIFT, after_hint, end_of, start_of, string_at};

// Whether the list `up`, the innermost that is open, ends at a place, before which `seen` nodes begin: by its note.
fn closes(notes: &[usize], up: usize, at: usize, seen: usize) -> bool
    requires { Closable notes.now up at seen }
    ensures { Closes notes.now up at seen result }
{
    let note = notes[up];
    if note % SHIFT != at {
        return false;
    }
    note / SHIFT / SHIFT % SHIFT == LIST + (seen - up)
}

// The number of the list around it.
fn around(notes: &[usize], up: usize) -> usize
    requires { up < length notes.now }
    ensures { result ≡ parent_part (get_or notes.now up 0) }
{
    notes[up] / SHIFT / SHIFT / SHIFT % SHIFT
}

// A list begins at a place, in the list `up`: whether the note is that of such a list. Where it says that the list ends is borne out there.
fn begins(note: usize, at: usize, up: usize, opened: usize) -> bool
    requires { at ≤ max_source }
    ensures { Begun note at up opened result }
{
    if opened >= limits::DEPTH {
        return false;
    }
    if note / SHIFT / SHIFT / SHIFT % SHIFT != up {
        return false;
    }
    if note / SHIFT % SHIFT != at + 1 {
        return false;
    }
    note / SHIFT / SHIFT % SHIFT >= LIST
}

// Whether the string that the note claims stands at a place, in the list `up`, with fewer than ten octets and no hint. Where it does not,
// nothing is said of what stands there.
fn near(src: &[u8], note: usize, at: usize, up: usize) -> bool
    requires { Meetable at up (length src.now) }
    ensures { Near src.now note at up result }
{
    let start = note / SHIFT % SHIFT;
    let end = note % SHIFT;
    if start != at + 2 {
        return false;
    }
    if end > src.len() {
        return false;
    }
    if start > end {
        return false;
    }
    let n = end - start;
    if n > 9 {
        return false;
    }
    if src[at] != b'0' + n as u8 {
        return false;
    }
    if src[at + 1] != b':' {
        return false;
    }
    note / THIRD == up * SHIFT
}

// Neither a parenthesis nor a string without a hint stands at a place: where the string with a hint ends that stands there with this note.
fn hints(src: &[u8], note: usize, at: usize, up: usize) -> Option<usize>
    requires meetable { Meetable at up (length src.now) }
    requires unread { Unread src.now at }
    ensures { Hints src.now note at up result }
{
    if src[at] != b'[' {
        return None;
    }
    let h = string_at(src, at + 1)?;
    let d = after_hint(src, end_of(h))?;
    if note == d + start_of(h) * THIRD + up * TOP {
        return Some(end_of(d));
    }
    None
}

// Whether, where a tree is whole, octets and nodes are at their end.
fn ended(len: usize, at: usize, seen: usize, nodes: usize) -> bool
    ensures { result ≡ both (leb len at) (eqb seen nodes) }
{
    if at < len {
        return false;
    }
    seen == nodes
}

// Whether the octets are a tree's canonical form, within the depth, and the first `nodes` notes tell its records. That a node was met is
// told by the place, which the loop has at hand, and not by the count. A string whose length has one digit, as most have, is looked for
// first.
pub fn own(src: &[u8], nodes: usize, notes: &[usize]) -> bool
    requires { Checkable src.now notes.now nodes }
    ensures { Checked src.now notes.now nodes result }
{
    let mut at: usize = 0;
    let mut up: usize = 0;
    let mut opened: usize = 0;
    let mut seen: usize = 0;
    loop {
        if walk::closed(opened, at) {
            return ended(src.len(), at, seen, nodes);
        }
        if at >= src.len() {
            return false;
        }
        if seen < nodes {
            let note = notes[seen];
            if near(src, note, at, up) {
                seen += 1;
                at = note % SHIFT;
                continue;
            }
        }
        let b = src[at];
        if b == b')' {
            if opened == 0 {
                return false;
            }
            if closes(notes, up, at, seen) {
                up = around(notes, up);
                opened -= 1;
                at += 1;
                continue;
            }
            return false;
        }
        if seen >= nodes {
            return false;
        }
        let note = notes[seen];
        if let Some(s) = string_at(src, at) {
            if note == s + up * TOP {
                seen += 1;
                at = note % SHIFT;
                continue;
            }
            return false;
        }
        if b == b'(' {
            if begins(note, at, up, opened) {
                up = seen;
                opened += 1;
                seen += 1;
                at += 1;
                continue;
            }
            return false;
        }
        let Some(next) = hints(src, note, at, up) else {
            return false;
        };
        seen += 1;
        at = next;
    }
}
