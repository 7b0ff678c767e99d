// The end of a text that came in pieces: the answer of reading the whole in form 1.
ghost use Rattle.std.specs.Prelude.{◌≡◌, ◌≤◌, length, take};
ghost use Rattle.model.specs.Answers.{reading};
ghost use Rattle.model.specs.Limits.{most_nodes};
ghost use Rattle.answers.specs.Cases.{outcome, RefusesAt};
ghost use Rattle.reader.specs.Stored.{Noteable, Puts};
ghost use Rattle.pieces.specs.Capped.{extent};
ghost use Rattle.pieces.specs.Tracks.{meant};
ghost use Rattle.pieces.specs.Coded.{state_in};
ghost use Rattle.pieces.specs.Ending.{Held, End, past_row, past_place, ended_by};

use crate::coded::state_in;
use crate::state::{State, space};
use crate::track::Track;
use answers::{Reading, Refusal, Sizes};

// Octets that the sheet holds: they are read where they stand.
fn inside(canonical: &[u8], fed: usize, notes: &mut [usize], records: usize) -> Reading
    requires { Held fed (length canonical.now) (length notes.old) }
    ensures { Puts (reading 1 (take fed canonical.now) canonical.now) canonical.now records notes.new result }
{
    let part = &canonical[..fed];
    let sizes = sheets::note(part, notes)?;
    rooms::room(sizes, canonical.len(), records)?;
    Ok(Sizes {
        length: sizes.len,
        nodes: sizes.nodes,
    })
}

// A text that went past the sheet has no room, whatever it is.
fn past(track: Track, room: usize, records: usize) -> Reading
    ensures { RefusesAt (past_row (extent (meant track)) room records) (past_place (extent (meant track))) result }
{
    let sizes = track.extent()?;
    rooms::room(sizes, room, records)?;
    Err(Refusal::Size)
}

// The end but for the table, for which so many records are lent: the notes tell it. Another size than the first time is sent back,
// before all else.
pub fn end_notes(
    state: State,
    canonical: &[u8],
    notes: &mut [usize],
    lent: usize,
    records: usize,
) -> Reading
    requires { Noteable state.fed (length notes.old) }
    ensures { Puts (ended_by state canonical.now lent) canonical.now records notes.new result }
{
    if canonical.len() != state.room {
        return Err(Refusal::NotOwn);
    }
    if lent != state.lent {
        return Err(Refusal::NotOwn);
    }
    let fed = state.fed;
    if fed > limits::SOURCE {
        return Err(Refusal::SourceSize);
    }
    if fed <= space(canonical.len()) {
        return inside(canonical, fed, notes, records);
    }
    let track = state.track;
    past(track, canonical.len(), records)
}

// The same and the table, as numbers, by notes in local space: a short text does not pay for clearing the notes of the largest.
#[inline(never)]
fn end_sized<const NOTES: usize>(state: State, canonical: &[u8], table: &mut [u32]) -> Reading
    requires noteable { Noteable state.fed NOTES }
    requires bounded { NOTES ≤ most_nodes }
    ensures { outcome result canonical.now table.new ≡ ended_by state canonical.now (length table.old) table.old }
{
    let mut notes: [usize; NOTES] = [0; NOTES];
    let records = table.len() / limits::WIDTH;
    let sizes = end_notes(state, canonical, &mut notes, table.len(), records)?;
    tables::fill(&notes, sizes.nodes, table);
    Ok(sizes)
}

// The end: the answer of reading the whole in form 1. Another size than the first time is sent back, before all else.
pub fn end(state: State, canonical: &[u8], table: &mut [u32]) -> Reading
    ensures { End state canonical.now (length table.old) table.old table.new result }
{
    let fed = state.fed;
    if fed <= limits::SHORT {
        return end_sized::<{ limits::SHORT_NOTES }>(state, canonical, table);
    }
    if fed <= limits::MIDDLE {
        return end_sized::<{ limits::MIDDLE_NOTES }>(state, canonical, table);
    }
    end_sized::<{ limits::NODES }>(state, canonical, table)
}

// The end but for the table, of a state that numbers say, where so many records are lent: the notes tell them.
pub fn end_coded(
    state: &[usize; 10],
    canonical: &[u8],
    notes: &mut [usize; limits::NODES],
    records: usize,
) -> Reading
    ensures { Puts (ended_by (state_in state.now) canonical.now records) canonical.now records notes.new result }
{
    let x = state_in(state);
    end_notes(x, canonical, notes, records, records)
}
