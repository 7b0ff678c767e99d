// Four letters' values and three octets.
ghost use Rattle.std.specs.Prelude.{◌+◌, ◌≤◌, ◌<◌, ◌≡◌, length, take};
ghost use Rattle.model.specs.Octets as model;
ghost use Rattle.scan.specs.Writes.{Wrote};
ghost use Rattle.radix64.specs.Bits.{Low, three_from};

// Four letters taken together give three octets.
pub fn octets(g: [u8; 4]) -> [u8; 3]
    requires { Low g }
    ensures { result ≡ three_from g }
{
    [
        g[0] * 4 + g[1] / 16,
        g[1] % 16 * 16 + g[2] / 4,
        g[2] % 4 * 64 + g[3],
    ]
}

// Whether the low bits may stand that the last letter has too many: zeros may.
pub fn leftover(bits: u8) -> bool
    ensures { result ≡ model.leftover bits }
{
    bits == 0
}

// The octets of a group, written; the place after them.
pub fn put_three(g: [u8; 4], out: &mut [u8], pos: usize) -> usize
    requires { Low g × (pos + 3 ≤ length out.old) }
    ensures { Wrote (three_from g) pos out.old out.new result }
{
    let t = octets(g);
    out[pos] = t[0];
    out[pos + 1] = t[1];
    out[pos + 2] = t[2];
    pos + 3
}

// The first `len` octets of a group, written; the place after them.
pub fn put_last(len: usize, g: [u8; 4], out: &mut [u8], pos: usize) -> usize
    requires { Low g × (len ≤ 2) × (pos + len ≤ length out.old) }
    ensures { Wrote (take len (three_from g)) pos out.old out.new result }
{
    if len == 0 {
        return pos;
    }
    let t = octets(g);
    out[pos] = t[0];
    if len == 1 {
        return pos + 1;
    }
    out[pos + 1] = t[1];
    pos + 2
}
