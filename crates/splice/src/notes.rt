// Notes where something else comes to stand at a spot of a sheet: they move, and no octet outside what comes is gone through again.
ghost use Rattle.std.specs.Prelude.{◌≡◌, ◌≤◌, length};
ghost use Rattle.splice.specs.Moved.{moved_note, later_note, own_note, list_over, grown_note, Moving, Later, Owning, Growing, Growable, Grown, Shiftable, Shifted, Puttable, Put, Enterable, Entered};
ghost use Rattle.splice.specs.Renoted.{Renotable, Renoted};

use sheets::notes::LIST;
use sheets::places::SHIFT;

// What a note grows by where its data move by one octet; where its hint does besides, or its list has one node more; and where the list
// around it has the next number.
const SPAN: usize = SHIFT + 1;

const THIRD: usize = SHIFT * SHIFT;

const TOP: usize = SHIFT * SHIFT * SHIFT;

// Octets and nodes of a sheet, and of the one that it becomes.
#[derive(Clone, Copy)]
pub struct Growth {
    pub old: usize,
    pub len: usize,
    pub held: usize,
    pub count: usize,
}

// The note of a node that moves as the end of `l` octets does when they become `l2`.
fn moved(note: usize, l: usize, l2: usize) -> usize
    requires { Moving note l l2 }
    ensures { result ≡ moved_note note l l2 }
{
    let to = note + l2 * SPAN - l * SPAN;
    let third = note / SHIFT / SHIFT % SHIFT;
    if third == 0 {
        return to;
    }
    if third < LIST {
        return to + l2 * THIRD - l * THIRD;
    }
    to
}

// The note of a node behind the spot. The list around it has another number too, if it begins behind the spot.
fn later(note: usize, first: usize, by: Growth) -> usize
    requires { Later note first by }
    ensures { result ≡ later_note note first by }
{
    let to = moved(note, by.old, by.len);
    if note / TOP < first {
        return to;
    }
    to + by.count * TOP - by.held * TOP
}

// The note of a node that comes, where its tree comes to stand at `start` and the number of the list around it grows by `up`.
fn own(note: usize, start: usize, up: usize) -> usize
    requires { Owning note start up }
    ensures { result ≡ own_note note start up }
{
    moved(note, 0, start) + up * TOP
}

// Whether a node before a spot that ends at `end` is a list around it: any other ends before it.
fn over(note: usize, end: usize) -> bool
    ensures { result ≡ list_over note end }
{
    if note / SHIFT / SHIFT % SHIFT < LIST {
        return false;
    }
    end <= note % SHIFT
}

// The note of a list around it, whose end and node count grow.
fn grown(note: usize, by: Growth) -> usize
    requires { Growing note by }
    ensures { result ≡ grown_note note by }
{
    note + (by.len + by.count * THIRD) - (by.old + by.held * THIRD)
}

// The notes before a spot: those of the lists around it grow. The number of the innermost, 0 where there is none.
fn around(notes: &mut [usize], first: usize, end: usize, by: Growth) -> usize
    requires { Growable notes.old first end by }
    ensures { Grown notes.old first end by notes.new result }
{
    let mut up: usize = 0;
    for j in 0..first {
        if over(notes[j], end) {
            notes[j] = grown(notes[j], by);
            up = j;
        }
    }
    up
}

// The notes behind a spot, n of them, where nodes have lower numbers than they had, or the same.
fn lower(notes: &mut [usize], first: usize, from: usize, to: usize, n: usize, by: Growth)
    requires shiftable { Shiftable notes.old first from to n by }
    requires to_le_from { to ≤ from }
    ensures { Shifted notes.old first from to n by notes.new }
{
    for j in 0..n {
        notes[to + j] = later(notes[from + j], first, by);
    }
}

// The same where they have higher ones.
fn raise(notes: &mut [usize], first: usize, from: usize, to: usize, n: usize, by: Growth)
    requires shiftable { Shiftable notes.old first from to n by }
    requires from_le_to { from ≤ to }
    ensures { Shifted notes.old first from to n by notes.new }
{
    for j in (0..n).rev() {
        notes[to + j] = later(notes[from + j], first, by);
    }
}

// By either.
fn shift(notes: &mut [usize], first: usize, from: usize, to: usize, n: usize, by: Growth)
    requires { Shiftable notes.old first from to n by }
    ensures { Shifted notes.old first from to n by notes.new }
{
    if from < to {
        raise(notes, first, from, to, n, by);
    } else {
        lower(notes, first, from, to, n, by);
    }
}

// The notes of a tree that comes to stand at `start`, where its first node gets the number `first` and stands in the list `up`.
fn put(notes: &mut [usize], start: usize, first: usize, up: usize)
    requires { Puttable notes.old start first up }
    ensures { Put notes.old start first up notes.new }
{
    let mut above = up;
    for note in notes {
        *note = own(*note, start, above);
        above = first;
    }
}

// The notes of what comes, which may be nothing, by its octets.
fn enter(octets: &[u8], notes: &mut [usize], start: usize, first: usize, up: usize)
    requires { Enterable octets.now (length notes.old) start first up }
    ensures { Entered octets.now (length notes.old) start first up notes.new }
{
    let _ = sheets::note(octets, notes);
    put(notes, start, first, up);
}

// The notes of a sheet, where at the spot from `start` to `end`, from node `first` on, come so many nodes with these octets.
pub fn renote(
    octets: &[u8],
    notes: &mut [usize],
    first: usize,
    start: usize,
    end: usize,
    nodes: usize,
    by: Growth,
)
    requires { Renotable octets.now notes.old first start end nodes by }
    ensures { Renoted octets.now notes.old first start end nodes by notes.new }
{
    let up = around(notes, first, end, by);
    let to = first + nodes;
    let n = by.count - to;
    shift(notes, first, by.held - n, to, n, by);
    let part = &mut notes[first..to];
    enter(octets, part, start, first, up);
}
