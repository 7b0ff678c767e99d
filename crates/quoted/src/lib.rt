// Quoted strings, from after their opening mark: a piece at a place, and runs of octets that stand for themselves.
#![tactic(auto)]

ghost use Rattle.std.specs.Prelude.{◌-◌, ◌≤◌, length, take, drop, IfSome};
ghost use Rattle.model.specs.Grammar.{rules};
ghost use Rattle.model.specs.Strings.{marked};
ghost use Rattle.scan.specs.Marks.{Stretch};
ghost use Rattle.quoted.specs.Pieces.{Quotes, Unescaped};

use escapes::{Piece, escape_at};
use octets::class_of;
use scan::class_end;

pub mod escapes; // escapes.rt: what stands after a backslash

// A piece of the string, or its end.
pub fn piece_at(src: &[u8], at: usize) -> Option<Piece>
    requires { at ≤ length src.now }
    ensures { Quotes src.now at result }
{
    let b = *src.get(at)?;
    if b == b'"' {
        return Some(Piece::Quote { next: at + 1 });
    }
    if b == b'\\' {
        return escape_at(src, at + 1);
    }
    if class_of(b) < octets::SPACE {
        return None;
    }
    Some(Piece::One {
        octet: b,
        next: at + 1,
    })
}

// The end of a run of octets that stand for themselves.
pub fn plain_end(src: &[u8], at: usize) -> usize
    requires { at ≤ length src.now }
    ensures { Stretch (marked rules 34) src.now at (take (result - at) (drop at src.now)) result }
{
    class_end(src, at, src.len(), octets::SPACE)
}

// The place after the closing mark of a string in which nothing is escaped.
pub fn unescaped_end(src: &[u8], at: usize) -> Option<usize>
    requires { at ≤ length src.now }
    ensures { IfSome result (Unescaped src.now at) }
{
    let end = plain_end(src, at);
    if end < src.len() {
        if src[end] == b'"' {
            return Some(end + 1);
        }
    }
    None
}
