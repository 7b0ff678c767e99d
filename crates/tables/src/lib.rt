// The table of a sheet, told by its notes.
#![tactic(auto)]

mod claims; // claims.rt: the note that a record claims
pub mod rows; // rows.rt: a node's record
mod told; // told.rt: the record that a note tells

ghost use Rattle.std.specs.Prelude.{length};
ghost use Rattle.tables.specs.Told.{Fillable, Filled};

pub use claims::{other_claim, plain_claim};
pub use rows::Row;
use rows::put_row;
pub use told::{over, parent_of, row_of};

// The table that the first notes tell, written from the front; what lies past it stays.
pub fn fill(notes: &[usize], count: usize, table: &mut [u32])
    requires { Fillable notes.now count (length table.old) }
    ensures { Filled notes.now count table.old table.new }
{
    for k in 0..count {
        put_row(table, k, row_of(notes, k), parent_of(notes, k));
    }
}
