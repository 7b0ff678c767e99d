// What the entries answer: what was asked for, or why it was refused. specs/ gives number and values for each case (S 14.2).
#![tactic(auto)]

mod refusal; // refusal.rt: why something was refused

ghost use Rattle.std.specs.Prelude.{◌≡◌};

pub use refusal::Refusal;

// The canonical length and the node count.
#[derive(Clone, Copy, Debug, PartialEq, Eq)]
pub struct Sizes {
    pub length: usize,
    pub nodes: usize,
}

// The answer of reading, and of correcting.
pub type Reading = Result<Sizes, Refusal>;

// The answer of writing: how many octets were written.
pub type Writing = Result<usize, Refusal>;

// The answer of comparing: whether two sheets are the same.
pub type Comparing = Result<bool, Refusal>;

// The answer of judging: nothing, where no row applies.
pub type Judging = Result<(), Refusal>;

// Where a part of a sheet stands.
#[derive(Clone, Copy, Debug, PartialEq, Eq)]
pub struct Part {
    pub start: usize,
    pub end: usize,
}
