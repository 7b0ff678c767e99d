// What the loops over lexemes share: the counts that they keep, and what measuring a text answers.
// specs/ has the loops as definitions; proofs/ shows that they compute what the model says of the tree.
#![tactic(auto)]

ghost use Rattle.std.specs.Prelude.{◌≡◌, max};
ghost use Rattle.model.specs.Count.{shut_by};

// The canonical length, the node count and the depth of the tree that a text means.
#[derive(Clone, Copy, Debug, PartialEq, Eq)]
pub struct Extent {
    pub len: usize,
    pub nodes: usize,
    pub depth: usize,
}

// A text means no tree: the place that is told of it.
#[derive(Clone, Copy, Debug, PartialEq, Eq)]
pub struct Broken {
    pub place: usize,
}

// What measuring a text answers.
pub type Measured = Result<Extent, Broken>;

// The larger of two.
pub fn larger(a: usize, b: usize) -> usize
    ensures { result ≡ max a b }
{
    if a < b { b } else { a }
}

// The tree is whole, so nothing may follow.
pub fn closed(opened: usize, seen: usize) -> bool
    ensures { result ≡ shut_by opened seen }
{
    if opened > 0 {
        return false;
    }
    seen > 0
}
