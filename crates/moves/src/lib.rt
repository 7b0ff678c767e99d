// Moves inside one lent slice, in blocks: std's `copy_within` goes octet by octet, and takes some twelve times as long.
#![tactic(auto)]

ghost use Rattle.std.specs.Prelude.{◌≡◌, ◌+◌, ◌-◌, ◌≤◌, length, take, drop};
ghost use Rattle.std.proofs.lemmas.List.Edits.{sets};
ghost use Rattle.moves.specs.Moved.{Raising, Lowering};

// Sixty-four octets from `from` on to `to` on, held in between, so that the two parts may overlap.
fn move_block(buf: &mut [u8], from: usize, to: usize)
    requires { (from + 64 ≤ length buf.old) × (to + 64 ≤ length buf.old) }
    ensures { buf.new ≡ sets buf.old to (take 64 (drop from buf.old)) }
{
    let mut held: [u8; 64] = [0; 64];
    scan::copy(buf, from, 64, &mut held, 0);
    scan::copy(&held, 0, 64, buf, to);
}

// Blocks from the last on, further up by `delta`; where the first of them began.
fn raise_blocks(buf: &mut [u8], from: usize, to: usize, delta: usize) -> usize
    requires { (from ≤ to) × (to + delta ≤ length buf.old) }
    ensures { Raising buf.old from to delta buf.new result }
{
    let mut j = to;
    while j - from >= 64 {
        j -= 64;
        move_block(buf, j, j + delta);
    }
    j
}

// Octets from the last to the first, further up by `delta`.
fn raise(buf: &mut [u8], from: usize, to: usize, delta: usize)
    requires { (from ≤ to) × (to + delta ≤ length buf.old) }
    ensures { buf.new ≡ sets buf.old (from + delta) (take (to - from) (drop from buf.old)) }
{
    let mut j = to;
    while from < j {
        j -= 1;
        buf[j + delta] = buf[j];
    }
}

// The octets from `from` up to `to`, further up by `delta`: the last first, for the two parts may overlap.
pub fn move_up(buf: &mut [u8], from: usize, to: usize, delta: usize)
    requires { (from ≤ to) × (to + delta ≤ length buf.old) }
    ensures { buf.new ≡ sets buf.old (from + delta) (take (to - from) (drop from buf.old)) }
{
    let rest = raise_blocks(buf, from, to, delta);
    raise(buf, from, rest, delta);
}

// Blocks from the first on, further down by `delta`; where the last of them ended.
fn lower_blocks(buf: &mut [u8], from: usize, to: usize, delta: usize) -> usize
    requires { (from ≤ to) × (to ≤ length buf.old) × (delta ≤ from) }
    ensures { Lowering buf.old from to delta buf.new result }
{
    let mut j = from;
    while to - j >= 64 {
        move_block(buf, j, j - delta);
        j += 64;
    }
    j
}

// Octets from the first to the last, further down by `delta`.
fn lower(buf: &mut [u8], from: usize, to: usize, delta: usize)
    requires { (from ≤ to) × (to ≤ length buf.old) × (delta ≤ from) }
    ensures { buf.new ≡ sets buf.old (from - delta) (take (to - from) (drop from buf.old)) }
{
    let mut j = from;
    while j < to {
        buf[j - delta] = buf[j];
        j += 1;
    }
}

// The octets from `from` up to `to`, further down by `delta`: the first first.
pub fn move_down(buf: &mut [u8], from: usize, to: usize, delta: usize)
    requires { (from ≤ to) × (to ≤ length buf.old) × (delta ≤ from) }
    ensures { buf.new ≡ sets buf.old (from - delta) (take (to - from) (drop from buf.old)) }
{
    let rest = lower_blocks(buf, from, to, delta);
    lower(buf, rest, to, delta);
}
