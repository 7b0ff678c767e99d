// The reader's running state, and a piece of text fed to it.
ghost use Rattle.std.specs.Prelude.{◌≡◌, []};
ghost use Rattle.model.specs.Automaton.{run};
ghost use Rattle.pieces.specs.Capped.{capped};
ghost use Rattle.pieces.specs.Tracks.{meant};
ghost use Rattle.pieces.specs.Feeding.{space, state_after, sent_back, Piece, stored_by, caught_up, gone_on};

use crate::numbers;
use crate::track::Track;
use answers::Refusal;

#[derive(Clone, Copy, Debug, PartialEq, Eq)]
pub struct State {
    // where the text stands, once it has gone past the sheet
    pub track: Track,
    // the octets taken so far
    pub fed: usize,
    // the sizes of the sheet and of the table
    pub room: usize,
    pub lent: usize,
}

// The state after a piece, and the octets taken so far, or why the piece was sent back (S 13.2).
#[derive(Clone, Copy, Debug, PartialEq, Eq)]
pub struct Fed {
    pub state: State,
    pub taken: Result<usize, Refusal>,
}

// How many octets of a text a sheet of this size holds.
pub fn space(room: usize) -> usize
    ensures { result ≡ space room }
{
    numbers::smaller(room, limits::CANONICAL)
}

// The track after a text, from one on.
pub fn follow(from: Track, text: &[u8]) -> Track
    ensures { meant result ≡ run capped (meant from) text.now }
{
    let mut track = from;
    for octet in text {
        track = track.step(*octet);
    }
    track
}

// Octets stored from a place on, as far as the space goes.
fn store(piece: &[u8], sheet: &mut [u8], at: usize)
    ensures { sheet.new ≡ stored_by at piece.now sheet.old }
{
    let room = space(sheet.len());
    if at < room {
        let n = numbers::smaller(piece.len(), room - at);
        scan::copy(piece, 0, n, sheet, at);
    }
}

// The track of the octets so far, which the sheet has while it holds them all.
fn caught_up(track: Track, fed: usize, sheet: &[u8]) -> Track
    ensures { result ≡ caught_up track fed sheet.now }
{
    if fed <= space(sheet.len()) {
        let part = &sheet[..fed];
        return follow(Track::start(), part);
    }
    track
}

// The track after a piece. It follows only what goes past the sheet, and no octet past the 32,769th.
fn gone_on(track: Track, fed: usize, piece: &[u8], sheet: &[u8]) -> Track
    ensures { result ≡ gone_on track fed piece.now sheet.now }
{
    if numbers::total(fed, piece.len()) <= space(sheet.len()) {
        return track;
    }
    let so_far = caught_up(track, fed, sheet);
    let n = numbers::smaller(numbers::left(fed), piece.len());
    let part = &piece[..n];
    follow(so_far, part)
}

impl State {
    // A reading into a sheet and a table of these sizes.
    pub fn start(room: usize, lent: usize) -> Self
        ensures { result ≡ state_after room lent [] }
    {
        let track = Track::start();
        State {
            track,
            fed: 0,
            room,
            lent,
        }
    }

    // Another size than the first time: nothing changes.
    fn sent_back(self) -> Fed
        ensures { result ≡ sent_back self }
    {
        Fed {
            state: self,
            taken: Err(Refusal::NotOwn),
        }
    }

    // A piece of the text. Another size than the first time is sent back, before all else.
    pub fn feed(mut self, piece: &[u8], sheet: &mut [u8], lent: usize) -> Fed
        ensures { Piece self piece.now sheet.old lent sheet.new result }
    {
        if sheet.len() != self.room {
            return self.sent_back();
        }
        if lent != self.lent {
            return self.sent_back();
        }
        let fed = self.fed;
        let old = self.track;
        let track = gone_on(old, fed, piece, sheet);
        store(piece, sheet, fed);
        let octets = numbers::total(fed, piece.len());
        self.track = track;
        self.fed = octets;
        Fed {
            state: self,
            taken: Ok(octets),
        }
    }
}
