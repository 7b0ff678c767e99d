// Digits to the base 256, the highest first, each turned over or not.
ghost use Rattle.std.specs.Prelude.{◌≡◌, [], ◌++◌, map, ◌+◌, ◌-◌, ◌^◌, ◌≤◌, ◌<◌, length, drop};
ghost use Rattle.std.proofs.Math.Seq.{slice};
ghost use Rattle.typed.specs.Octets.{be, octs, turned};

fn digit(b: u8, turn: bool) -> u64
    ensures { (result ≡ turned turn b) × (result < 256) }
{
    if turn {
        return 255 - b as u64;
    }
    b as u64
}

// The number that the octets from `start` up to `end` are.
pub fn number(src: &[u8], start: usize, end: usize, turn: bool) -> u64
    requires { (start ≤ end) × (end ≤ length src.now) × (end ≤ start + 8) }
    ensures { (result ≡ be 0 (map (turned turn) (slice start end src.now))) × (result < 256 ^ (end - start)) }
{
    let mut n: u64 = 0;
    for i in start..end {
        n = n * 256 + digit(src[i], turn);
    }
    n
}

fn octet(d: u64, turn: bool) -> u8
    requires { d < 256 }
    ensures { result ≡ turned turn d }
{
    if turn {
        return (255 - d) as u8;
    }
    d as u8
}

// The `k` lowest digits of `n` at the front of `out`.
pub fn put(out: &mut [u8], k: usize, n: u64, turn: bool)
    requires { k ≤ length out.old }
    ensures { out.new ≡ map (turned turn) (octs k n []) ++ drop k out.old }
{
    let mut m = n;
    for i in (0..k).rev() {
        out[i] = octet(m % 256, turn);
        m = m / 256;
    }
}
