// Lengths in groups of seven bits: read at a place, and told group by group.
ghost use Rattle.std.specs.Prelude.{◌≡◌, ◌≤◌, ◌<◌, length, get_or};
ghost use Rattle.model.specs.Limits.{max_canonical};
ghost use Rattle.spools.specs.Groups.{groups};
ghost use Rattle.groups.specs.Places.{Lengths};
ghost use Rattle.groups.specs.Octets.{Wide};

// A length, of at most three groups, since no sheet is longer; and the place after it.
#[derive(Clone, Copy, Debug, PartialEq, Eq)]
pub struct Length {
    pub value: usize,
    pub next: usize,
}

// The length at a place, if there is one.
pub fn length_at(area: &[u8], at: usize) -> Option<Length>
    requires { at < length area.now }
    ensures { Lengths area.now at result }
{
    let a = area[at];
    if a < 128 {
        return Some(Length {
            value: a as usize,
            next: at + 1,
        });
    }
    if at + 1 >= area.len() {
        return None;
    }
    let b = area[at + 1];
    if b == 0 {
        return None;
    }
    if b < 128 {
        return Some(Length {
            value: (a % 128) as usize + 128 * b as usize,
            next: at + 2,
        });
    }
    if at + 2 >= area.len() {
        return None;
    }
    let c = area[at + 2];
    if c == 0 {
        return None;
    }
    if c < 128 {
        return Some(Length {
            value: (a % 128) as usize + 128 * (b % 128) as usize + 16384 * c as usize,
            next: at + 3,
        });
    }
    None
}

// How many groups the length of a sheet has.
pub fn groups_len(n: usize) -> usize
    requires { n ≤ max_canonical }
    ensures { Wide n result }
{
    if n < 128 {
        return 1;
    }
    if n < 16384 {
        return 2;
    }
    3
}

// One of its groups.
pub fn group_at(n: usize, i: usize) -> u8
    requires { (n ≤ max_canonical) × (i < length (groups n)) }
    ensures { result ≡ get_or (groups n) i 0 }
{
    if i == 0 {
        if n < 128 {
            return n as u8;
        }
        return 128 + (n % 128) as u8;
    }
    if i == 1 {
        if n < 16384 {
            return (n / 128) as u8;
        }
        return 128 + (n / 128 % 128) as u8;
    }
    (n / 16384) as u8
}
