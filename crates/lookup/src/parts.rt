// Octets compared.
ghost use Rattle.std.specs.Prelude.{◌≡◌, ◌+◌, ◌≤◌, length, eqb};
ghost use Rattle.base.specs.Choice.{both, equal};
ghost use Rattle.lookup.specs.Agreed.{Agree, Block, Copied};

// The same so far, and these two.
fn still(so: bool, x: u8, y: u8) -> bool
    ensures { result ≡ both (eqb x y) so }
{
    if x == y { so } else { false }
}

// Whether sixteen octets from a place on are the same. No jump hangs on one of them.
fn block_equal(a: &[u8], b: &[u8], at: usize) -> bool
    requires { (at + 16 ≤ length a.now) × (at + 16 ≤ length b.now) }
    ensures { Block a.now b.now at 16 result }
{
    let mut so = true;
    for k in 0..16 {
        so = still(so, a[at + k], b[at + k]);
    }
    so
}

// Whether two parts hold the same octets, which they do up to a place: one by one.
fn rest_equal(a: &[u8], b: &[u8], from: usize) -> bool
    requires { Agree a.now b.now from }
    ensures { result ≡ equal a.now b.now }
{
    for i in from..a.len() {
        if a[i] != b[i] {
            return false;
        }
    }
    true
}

// Whether two parts hold the same octets: by blocks, and then what is left.
pub fn parts_equal(a: &[u8], b: &[u8]) -> bool
    ensures { result ≡ equal a.now b.now }
{
    if a.len() != b.len() {
        return false;
    }
    let mut i: usize = 0;
    while a.len() - i >= 16 {
        if block_equal(a, b, i) {
            i += 16;
        } else {
            return false;
        }
    }
    rest_equal(a, b, i)
}

// Whether the first octets of b are those of a, and as many.
pub fn copied(a: &[u8], a_length: usize, b: &[u8], b_length: usize) -> bool
    requires { a_length ≤ length a.now }
    ensures { Copied a.now a_length b.now b_length result }
{
    if b_length != a_length {
        return false;
    }
    if b_length > b.len() {
        return false;
    }
    let left = &a[..a_length];
    let right = &b[..b_length];
    parts_equal(left, right)
}
