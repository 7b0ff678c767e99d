// Numbers that stop one past the longest text.
ghost use Rattle.std.specs.Prelude.{◌≡◌, ◌+◌, ◌*◌, ◌-◌, ◌≤◌, min};
ghost use Rattle.pieces.specs.Capped.{cap, capped};
ghost use Rattle.pieces.specs.Feeding.{total};

// Where they stop.
pub const CAP: usize = limits::SOURCE + 1;

// One more.
pub fn up(n: usize) -> usize
    ensures { result ≡ capped (n + 1) }
{
    if n >= CAP { CAP } else { n + 1 }
}

// Another digit.
pub fn grown(n: usize, digit: u8) -> usize
    requires { (48 ≤ digit) × (digit ≤ 57) }
    ensures { result ≡ capped (n * 10 + (digit - 48)) }
{
    if n > CAP / 10 {
        CAP
    } else {
        n * 10 + (digit - b'0') as usize
    }
}

// One less, if there is one.
pub fn down(n: usize) -> usize
    ensures { result ≡ n - 1 }
{
    if n > 0 { n - 1 } else { 0 }
}

// The smaller of two.
pub fn smaller(a: usize, b: usize) -> usize
    ensures { result ≡ min a b }
{
    if a < b { a } else { b }
}

// So many more.
pub fn total(fed: usize, n: usize) -> usize
    ensures { result ≡ total fed n }
{
    if fed >= CAP {
        return CAP;
    }
    if n >= CAP {
        return CAP;
    }
    smaller(fed + n, CAP)
}

// How many more are looked at.
pub fn left(fed: usize) -> usize
    ensures { result ≡ cap - fed }
{
    if fed >= CAP { 0 } else { CAP - fed }
}
