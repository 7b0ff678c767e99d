// What stands after a backslash: the octet that it means, or nothing.
ghost use Rattle.std.specs.Prelude.{◌+◌, ◌≤◌, ◌<◌, [], length, drop, get_or};
ghost use Rattle.model.specs.Grammar.{rules};
ghost use Rattle.model.specs.Strings.{got, past, hex_of, octal_of, escaped};
ghost use Rattle.quoted.specs.Pieces.{Escapes};

use octets::{escape_of, hex_of, octal_of};

// A piece of a quoted string: an octet, nothing, or the closing mark.
#[derive(Clone, Copy, Debug, PartialEq, Eq)]
pub enum Piece {
    One { octet: u8, next: usize },
    Gone { next: usize },
    Quote { next: usize },
}

// Two hexadecimal digits.
fn hex_escape(src: &[u8], at: usize) -> Option<Piece>
    requires { at ≤ length src.now }
    ensures { Escapes src.now (hex_of (drop at src.now)) at result }
{
    if src.len() - at < 2 {
        return None;
    }
    let h = hex_of(src[at])?;
    let l = hex_of(src[at + 1])?;
    Some(Piece::One {
        octet: h * 16 + l,
        next: at + 2,
    })
}

// Three octal digits, not over 255.
fn octal_escape(src: &[u8], at: usize) -> Option<Piece>
    requires { at < length src.now }
    ensures { Escapes src.now (octal_of (get_or src.now at 0) (drop (at + 1) src.now)) at result }
{
    if src.len() - at < 3 {
        return None;
    }
    let a = octal_of(src[at])? as usize;
    let b = octal_of(src[at + 1])? as usize;
    let c = octal_of(src[at + 2])? as usize;
    let v = a * 64 + b * 8 + c;
    if v > 255 {
        return None;
    }
    Some(Piece::One {
        octet: v as u8,
        next: at + 3,
    })
}

// The second octet of a line's end, where it is there.
fn line_escape(src: &[u8], at: usize, other: u8) -> Piece
    requires { at ≤ length src.now }
    ensures { Escapes src.now (got [] (past other (drop at src.now))) at (Some result) }
{
    if at >= src.len() {
        return Piece::Gone { next: at };
    }
    if src[at] == other {
        return Piece::Gone { next: at + 1 };
    }
    Piece::Gone { next: at }
}

// Any escape, from after its backslash.
pub fn escape_at(src: &[u8], at: usize) -> Option<Piece>
    requires { at ≤ length src.now }
    ensures { Escapes src.now (escaped rules (drop at src.now)) at result }
{
    let e = *src.get(at)?;
    if let Some(octet) = escape_of(e) {
        return Some(Piece::One {
            octet,
            next: at + 1,
        });
    }
    match e {
        b'x' => hex_escape(src, at + 1),
        b'\r' => Some(line_escape(src, at + 1, b'\n')),
        b'\n' => Some(line_escape(src, at + 1, b'\r')),
        _ => octal_escape(src, at),
    }
}
