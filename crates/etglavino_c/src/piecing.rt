// Texts in pieces, for C: a state by value is ten numbers, and any numbers may stand in it. The table is not touched before an
// accepted end, so that the start and the pieces take its size alone: its numbers, or its records.
ghost use Rattle.std.specs.Prelude.{◌≡◌, []};
ghost use Rattle.pieces.specs.Feeding.{state_after};
ghost use Rattle.pieces.specs.Coded.{state_in, state_numbers};
ghost use Rattle.etglavino_c.specs.Piecing.{PieceOut, EndNumbers, EndRecords};

use crate::hand_placed;
use pieces::{State, hand_state, state_in};
use records::Record;

#[unsafe(no_mangle)]
pub extern "C" fn etg_pieces_start(
    state: &mut [usize; 10],
    canonical_size: usize,
    table_size: usize,
)
    ensures { state.new ≡ state_numbers (state_after canonical_size table_size []) }
{
    let begun = State::start(canonical_size, table_size);
    hand_state(begun, state);
}

// Where sizes differ, the numbers of the state stay as they are, also where no state that was handed out has them.
#[unsafe(no_mangle)]
pub extern "C" fn etg_pieces_feed(
    state: &mut [usize; 10],
    piece: &[u8],
    canonical: &mut [u8],
    table_size: usize,
    taken: &mut usize,
) -> u32
    ensures { PieceOut state.old piece.now canonical.old table_size canonical.new state.new result taken.new }
{
    let before = state_in(state);
    let fed = before.feed(piece, canonical, table_size);
    match fed.taken {
        Ok(octets) => {
            *taken = octets;
            let after = fed.state;
            hand_state(after, state);
            0
        }
        Err(refusal) => {
            *taken = 0;
            refusal.number()
        }
    }
}

#[unsafe(no_mangle)]
pub extern "C" fn etg_pieces_end(
    state: &[usize; 10],
    canonical: &[u8],
    table: &mut [u32],
    length: &mut usize,
    nodes: &mut usize,
    place: &mut usize,
) -> u32
    ensures { EndNumbers (state_in state.now) canonical.now table.old table.new result place.new length.new nodes.new }
{
    let ended = state_in(state);
    let answer = etglavino::pieces_end(ended, canonical, table);
    hand_placed(answer, length, nodes, place)
}

// The same with the table lent as records.
#[unsafe(no_mangle)]
pub extern "C" fn etg_pieces_end_records(
    state: &[usize; 10],
    canonical: &[u8],
    records: &mut [Record],
    length: &mut usize,
    nodes: &mut usize,
    place: &mut usize,
) -> u32
    ensures { EndRecords (state_in state.now) canonical.now records.old records.new result place.new length.new nodes.new }
{
    let answer = records::pieces_end(state, canonical, records);
    hand_placed(answer, length, nodes, place)
}
