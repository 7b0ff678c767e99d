// Texts in pieces, whose tables are records.
ghost use Rattle.std.specs.Prelude.{length};
ghost use Rattle.pieces.specs.Coded.{state_in};
ghost use Rattle.pieces.specs.Ending.{End};
ghost use Rattle.records.specs.Numbers.{numbers};

use crate::{Record, tell};
use answers::Reading;

// The end of a text that came in pieces, in the state that numbers say: the answer of reading the whole in form 1, and where it is an
// acceptance, the records of its nodes.
pub fn pieces_end(state: &[usize; 10], canonical: &[u8], records: &mut [Record]) -> Reading
    ensures { End (state_in state.now) canonical.now (length records.old) (numbers records.old) (numbers records.new) result }
{
    let mut notes: [usize; limits::NODES] = [0; limits::NODES];
    let sizes = pieces::end_coded(state, canonical, &mut notes, records.len())?;
    tell(records, &notes, sizes.nodes, 0);
    Ok(sizes)
}
