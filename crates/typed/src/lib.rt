// Values with a type, and hours: the types that the entries take and answer with. specs/ says what each means.
#![tactic(auto)]

use answers::Refusal;

// A typed value: a single, a double, a whole number, or raw octets, told by their place.
#[derive(Clone, Copy, Debug, PartialEq)]
pub enum Value {
    Single(f32),
    Double(f64),
    Whole(i64),
    Raw { start: usize, end: usize },
}

// A shift line: hours as doubles.
#[derive(Clone, Copy, Debug, PartialEq)]
pub struct Line {
    pub ordinary: f64,
    pub night: f64,
    pub holiday: f64,
}

// A sum of hours: the exact count of quarters, and the double that is a quarter of it.
#[derive(Clone, Copy, Debug, PartialEq)]
pub struct Total {
    pub quarters: u32,
    pub hours: f64,
}

// A shift line and its total.
#[derive(Clone, Copy, Debug, PartialEq)]
pub struct Shift {
    pub line: Line,
    pub total: Total,
}

// A list of lines: how many there are, and their total.
#[derive(Clone, Copy, Debug, PartialEq)]
pub struct Week {
    pub lines: usize,
    pub total: Total,
}

// Why a list of lines was refused, and with `Refusal::NotLine` the first element that is no line; else node 0.
#[derive(Clone, Copy, Debug, PartialEq, Eq)]
pub struct Misfit {
    pub refusal: Refusal,
    pub node: usize,
}

// The answer for a node's value.
pub type Valuing = Result<Value, Refusal>;

// The answer for the total of a line that the caller made up.
pub type Totalling = Result<Total, Refusal>;

// The answer for a node's line, with its total.
pub type Lining = Result<Shift, Refusal>;

// The answer for a list of lines.
pub type Summing = Result<Week, Misfit>;
