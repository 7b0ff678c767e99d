// The cases file: numbers, slices and lent buffers at a place of a case (reference/README.md, "The file `cases`"). What does not
// lie within a case ends nowhere and reads as 0 or as nothing, and so does all that follows it. So nothing is asked of a caller,
// and a case is well formed where its last argument ends at the case's end.
ghost use Rattle.std.specs.Prelude.{◌≡◌, ◌≤◌, get_or};
ghost use Rattle.io.specs.Counts.{IsPrefixLen};
ghost use Rattle.cases.specs.Wire.{number4_at, number8_at, place_after, part_at, lent_octet, lent_number, Filled, Widened, given};

// A place that no case has.
const NOWHERE: usize = 18446744073709551615;

// A lent buffer as the file has it: its room, its fill, and where the elements given begin and end.
#[derive(Clone, Copy)]
pub struct Lending {
    pub room: usize,
    pub fill: u8,
    pub start: usize,
    pub next: usize,
}

fn wide(octet: u8) -> u32
    ensures { Widened 256 octet result }
{
    octet as u32
}

fn long(number: u32) -> usize
    ensures { Widened 4294967296 number result }
{
    number as usize
}

// The octet at a place.
pub fn octet(case: &[u8], at: usize) -> u8
    ensures { result ≡ get_or case.now at 0 }
{
    if at < case.len() { case[at] } else { 0 }
}

// The number of four octets, the lowest first.
pub fn number4(case: &[u8], at: usize) -> u32
    ensures { result ≡ number4_at case.now at }
{
    if case.len() < 4 {
        return 0;
    }
    if at > case.len() - 4 {
        return 0;
    }
    wide(case[at])
        + 256 * wide(case[at + 1])
        + 65536 * wide(case[at + 2])
        + 16777216 * wide(case[at + 3])
}

// The number of eight octets, the lowest first.
pub fn number8(case: &[u8], at: usize) -> usize
    ensures { result ≡ number8_at case.now at }
{
    if case.len() < 8 {
        return 0;
    }
    if at > case.len() - 8 {
        return 0;
    }
    long(number4(case, at)) + 4294967296 * long(number4(case, at + 4))
}

// The size of a case, which stands before it; 0, which is no case's, where `space` has no room for it.
pub fn size(head: &[u8], space: &[u8]) -> usize
    ensures { IsPrefixLen result space.now }
{
    let size = long(number4(head, 0));
    if size > space.len() { 0 } else { size }
}

// The place `count` octets further on.
pub fn past(case: &[u8], at: usize, count: usize) -> usize
    ensures { result ≡ place_after case.now at count }
{
    if at > case.len() {
        return NOWHERE;
    }
    if count > case.len() - at {
        return NOWHERE;
    }
    at + count
}

// The octets from one place to another.
pub fn part(case: &[u8], start: usize, end: usize) -> &[u8]
    ensures { result.now ≡ part_at case.now start end }
{
    if end > case.len() {
        return &case[0..0];
    }
    if start > end {
        return &case[0..0];
    }
    &case[start..end]
}

// A slice: a count and its octets.
pub fn slice(case: &[u8], at: usize) -> &[u8] {
    part(case, past(case, at, 4), slice_end(case, at))
}

pub fn slice_end(case: &[u8], at: usize) -> usize {
    past(case, past(case, at, 4), long(number4(case, at)))
}

// A lent buffer of at most `most` elements, each given in `width` octets.
fn lent(case: &[u8], at: usize, width: usize, most: usize) -> Lending
    requires { width ≤ 4 }
    ensures { result.room ≤ most }
{
    let room = long(number4(case, at));
    let fill = octet(case, past(case, at, 4));
    let count = long(number4(case, past(case, at, 5)));
    let start = past(case, at, 9);
    let next = past(case, start, count * width);
    if room > most {
        return nothing();
    }
    if count > room {
        return nothing();
    }
    Lending {
        room,
        fill,
        start,
        next,
    }
}

fn nothing() -> Lending
    ensures { result.room ≡ 0 }
{
    Lending {
        room: 0,
        fill: 0,
        start: NOWHERE,
        next: NOWHERE,
    }
}

// A lent buffer of octets that `space` has room for.
pub fn lent_octets(case: &[u8], at: usize, space: &[u8]) -> Lending
    ensures { IsPrefixLen result.room space.now }
{
    lent(case, at, 1, space.len())
}

// The same for numbers.
pub fn lent_numbers(case: &[u8], at: usize, space: &[u32]) -> Lending
    ensures { IsPrefixLen result.room space.now }
{
    lent(case, at, 4, space.len())
}

// The octet at place i of a lent buffer.
fn lent_octet(given: &[u8], fill: u8, i: usize) -> u8
    ensures { result ≡ lent_octet given.now fill i }
{
    if i < given.len() {
        given[i]
    } else {
        ((fill as usize + i % 251) % 251) as u8
    }
}

// The number at place i of a lent buffer.
fn lent_number(given: &[u8], fill: u8, i: usize) -> u32
    ensures { result ≡ lent_number given.now fill i }
{
    if i < given.len() / 4 {
        number4(given, 4 * i)
    } else {
        ((fill as usize + i % 251) % 251) as u32
    }
}

// A whole lent buffer of octets before an entry runs.
fn fill_octets(given: &[u8], fill: u8, room: &mut [u8])
    ensures { Filled (lent_octet given.now fill) room.new }
{
    for (i, octet) in room.iter_mut().enumerate() {
        *octet = lent_octet(given, fill, i);
    }
}

// The same for numbers.
fn fill_numbers(given: &[u8], fill: u8, room: &mut [u32])
    ensures { Filled (lent_number given.now fill) room.new }
{
    for (i, number) in room.iter_mut().enumerate() {
        *number = lent_number(given, fill, i);
    }
}

// A lent buffer as its case has it, in room of the size that the case names.
pub fn lend_octets(case: &[u8], lending: Lending, room: &mut [u8])
    ensures { Filled (lent_octet (given case.now lending) lending.fill) room.new }
{
    let part = part(case, lending.start, lending.next);
    fill_octets(part, lending.fill, room);
}

pub fn lend_numbers(case: &[u8], lending: Lending, room: &mut [u32])
    ensures { Filled (lent_number (given case.now lending) lending.fill) room.new }
{
    let part = part(case, lending.start, lending.next);
    fill_numbers(part, lending.fill, room);
}
