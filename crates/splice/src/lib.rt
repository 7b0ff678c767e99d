// A sheet rewritten in place, and its table: the octets after a spot make room, the notes move, and what the new sheet leaves of the old
// one is zeroed.
#![tactic(auto)]

mod notes; // notes.rt: notes that move

ghost use Rattle.std.specs.Prelude.{◌≡◌, ◌+◌, ◌-◌, length, take, drop};
ghost use Rattle.std.proofs.lemmas.List.Edits.{sets};
ghost use Rattle.splice.specs.Rewritten.{Movable, Ending, Ended, Retellable, Retold};

use answers::Sizes;
pub use notes::{Growth, renote};

// The octets after a spot moved, so that `len` octets have room from `start` on.
pub fn gap(canonical: &mut [u8], start: usize, end: usize, whole: usize, len: usize)
    requires { Movable (length canonical.old) start end whole len }
    ensures { canonical.new ≡ sets canonical.old (start + len) (take (whole - end) (drop end canonical.old)) }
{
    let old = end - start;
    if len > old {
        moves::move_up(canonical, end, whole, len - old);
    } else {
        moves::move_down(canonical, end, whole, old - len);
    }
}

// Zeros from the `len` octets that stand there up to a larger old length, and the new sizes.
pub fn end(canonical: &mut [u8], old: usize, len: usize, count: usize) -> Sizes
    requires { Ending (length canonical.old) old len }
    ensures { Ended canonical.old old len count canonical.new result }
{
    canonical[len..walk::larger(old, len)].fill(0);
    Sizes {
        length: len,
        nodes: count,
    }
}

// The table that notes tell of `count` nodes, where `held` records were in use, and zeros up to a larger old count.
pub fn retell(notes: &[usize], table: &mut [u32], held: usize, count: usize)
    requires { Retellable notes.now (length table.old) held count }
    ensures { Retold notes.now held count table.old table.new }
{
    tables::fill(notes, count, table);
    let end = walk::larger(held, count) * limits::WIDTH;
    table[count * limits::WIDTH..end].fill(0);
}
