// A tree in braces, which form 4 has where a value may stand.
ghost use Rattle.std.specs.Prelude.{◌≡◌, ◌≤◌, ◌<◌, length, eqb};
ghost use Rattle.base.specs.Choice.{both};
ghost use Rattle.model.specs.Limits.{max_source};
ghost use Rattle.advanced.specs.Nodes.{Spare};
ghost use Rattle.advanced.specs.Braced.{Holds};

use walk::Extent;

// A tree in braces: the place after them, and its sizes.
#[derive(Clone, Copy, Debug, PartialEq, Eq)]
pub struct Inside {
    pub next: usize,
    pub sizes: Extent,
}

// Whether an octet opens braces, where they may stand.
pub fn opens(braces: bool, b: u8) -> bool
    ensures { result ≡ both braces (eqb b 123) }
{
    if b != b'{' {
        return false;
    }
    braces
}

// A tree in braces, decoded where its octets go and measured there.
pub fn tree_at(src: &[u8], at: usize, out: &mut [u8], pos: usize) -> Option<Inside>
    requires { (at < length src.now) × Spare src.now at pos (length out.old) × (pos ≤ max_source) }
    ensures { Holds src.now at pos out.old out.new result }
{
    let mut n: usize = 0;
    let next = marks::base(src, at + 1, b'}', out, pos, &mut n)?;
    let end = pos + n;
    let part = &out[pos..end];
    let mut none: [usize; 1] = [0; 1];
    match sheets::note(part, &mut none) {
        Ok(sizes) => Some(Inside { next, sizes }),
        Err(_) => None,
    }
}
