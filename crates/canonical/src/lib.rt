// Canonical text: the lexeme at a place.
#![tactic(auto)]

ghost use Rattle.std.specs.Prelude.{◌≤◌, ◌<◌, length};
ghost use Rattle.canonical.specs.Lexed.{Follows, Spans, Closes, ItemAt};

use decimal::decimal_at;

// Where the octets of a verbatim string stand.
#[derive(Clone, Copy, Debug, PartialEq, Eq)]
pub struct Span {
    pub start: usize,
    pub end: usize,
}

// A lexeme; a string's octets, and its hint's, stand from start to end.
#[derive(Clone, Copy, Debug, PartialEq, Eq)]
pub enum Item {
    Open,
    Close,
    Plain {
        start: usize,
        end: usize,
    },
    Hinted {
        hint_start: usize,
        hint_end: usize,
        start: usize,
        end: usize,
    },
}

// What follows a length n.
fn after_length(src: &[u8], at: usize, n: usize) -> Option<Span>
    requires { at ≤ length src.now }
    ensures { Follows src.now at n result }
{
    if *src.get(at)? != b':' {
        return None;
    }
    let start = at + 1;
    if n > src.len() - start {
        return None;
    }
    Some(Span {
        start,
        end: start + n,
    })
}

// The verbatim string at a place.
fn verbatim_at(src: &[u8], at: usize) -> Option<Span>
    requires { at ≤ length src.now }
    ensures { Spans src.now at result }
{
    let b = *src.get(at)?;
    if b < b'0' {
        return None;
    }
    if b > b'9' {
        return None;
    }
    let number = decimal_at(src, at)?;
    after_length(src, number.next, number.value)
}

// What follows a hint that stands from `from` to `to`.
fn after_hint(src: &[u8], from: usize, to: usize) -> Option<Item>
    requires { to ≤ length src.now }
    ensures { Closes src.now from to result }
{
    if *src.get(to)? != b']' {
        return None;
    }
    let data = verbatim_at(src, to + 1)?;
    Some(Item::Hinted {
        hint_start: from,
        hint_end: to,
        start: data.start,
        end: data.end,
    })
}

// The lexeme at a place.
pub fn lexeme_at(src: &[u8], at: usize) -> Option<Item>
    requires { at < length src.now }
    ensures { ItemAt src.now at result }
{
    let b = src[at];
    if b == b'(' {
        return Some(Item::Open);
    }
    if b == b')' {
        return Some(Item::Close);
    }
    if b == b'[' {
        let hint = verbatim_at(src, at + 1)?;
        return after_hint(src, hint.start, hint.end);
    }
    let data = verbatim_at(src, at)?;
    Some(Item::Plain {
        start: data.start,
        end: data.end,
    })
}
