// Canonical text that comes in pieces. The sheet and the table are the same each time, and left alone between.
ghost use Rattle.std.specs.Prelude.{◌≡◌, [], length};
ghost use Rattle.pieces.specs.Feeding.{state_after, Piece};
ghost use Rattle.pieces.specs.Ending.{End};

use answers::Reading;
use pieces::{Fed, State};

// S 13.1: a reading begins, into a sheet and a table of these sizes; nothing else of them matters yet.
pub fn pieces_start(canonical: &[u8], table: &[u32]) -> State
    ensures { result ≡ state_after (length canonical.now) (length table.now) [] }
{
    State::start(canonical.len(), table.len())
}

// S 13.2, 13.3: the next piece, which may be empty and may be cut anywhere. It goes to the sheet, while that has room and up to
// 16,384; the octets taken so far are told. A sheet or a table of another size than at the start gives 7, and nothing changes.
pub fn pieces_feed(state: State, piece: &[u8], canonical: &mut [u8], table: &[u32]) -> Fed
    ensures { Piece state piece.now canonical.old (length table.now) canonical.new result }
{
    state.feed(piece, canonical, table.len())
}

// S 13.2, 13.4: the end: the answer of reading all pieces as one text in form 1. Where it is an acceptance, the sheet is as reading leaves
// it already, and the table is filled; where it is a refusal, nothing is restored.
pub fn pieces_end(state: State, canonical: &[u8], table: &mut [u32]) -> Reading
    ensures { End state canonical.now (length table.old) table.old table.new result }
{
    pieces::end(state, canonical, table)
}
