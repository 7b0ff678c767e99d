// Two sheets gone through side by side, lexeme by lexeme.
ghost use Rattle.std.specs.Prelude.{◌≡◌, length};
ghost use Rattle.base.specs.Choice.{equal};
ghost use Rattle.model.specs.Compare.{same};
ghost use Rattle.model.specs.Decode.{decode₁};
ghost use Rattle.model.specs.Answers.{the};
ghost use Rattle.lookup.specs.Alike.{matches};
ghost use Rattle.lookup.specs.Tokens.{mark, lexeme_of, hint_in, part_of, Lies, Readable, TokenAt, Sheets};
ghost use Rattle.lookup.specs.Strings.{Span, spanned};

use super::parts::parts_equal;
use canonical::Item;
use sheets::places::{end_of, start_of, string_at};

// A lexeme: 0 an opening parenthesis, 1 a closing one, 2 a string. A string's octets stand from start to end,
// those of its hint from `from` to `to`. The next lexeme begins at next.
#[derive(Clone, Copy)]
struct Token {
    sort: u8,
    hinted: bool,
    from: usize,
    to: usize,
    start: usize,
    end: usize,
    next: usize,
}

// A parenthesis.
fn parenthesis(sort: u8, next: usize) -> Token
    ensures { result ≡ mark sort next }
{
    Token {
        sort,
        hinted: false,
        from: 0,
        to: 0,
        start: 0,
        end: 0,
        next,
    }
}

// The lexeme at a place of canonical octets.
fn token_at(src: &[u8], at: usize) -> Token
    requires { Readable src.now at }
    ensures { TokenAt src.now at result }
{
    match canonical::lexeme_at(src, at) {
        Some(Item::Open) => parenthesis(0, at + 1),
        Some(Item::Close) => parenthesis(1, at + 1),
        Some(Item::Plain { start, end }) => Token {
            sort: 2,
            hinted: false,
            from: 0,
            to: 0,
            start,
            end,
            next: end,
        },
        Some(
            Item::Hinted {
                hint_start,
                hint_end,
                start,
                end,
            },
        ) => Token {
            sort: 2,
            hinted: true,
            from: hint_start,
            to: hint_end,
            start,
            end,
            next: end,
        },
        // The octets are canonical, so that this never comes.
        None => parenthesis(1, at + 1),
    }
}

// The octets of a string.
fn data_of(src: &[u8], token: Token) -> &[u8]
    requires { Lies (length src.now) token }
    ensures { result.now ≡ part_of src.now token.start token.end }
{
    let start = token.start;
    let end = token.end;
    &src[start..end]
}

// Whether the hint that a string counts with has these octets: an empty hint is not a missing one.
fn hint_is(src: &[u8], token: Token, default_hint: &[u8], octets: &[u8]) -> bool
    requires { Lies (length src.now) token }
    ensures { result ≡ equal (hint_in default_hint.now src.now token) octets.now }
{
    if token.hinted {
        let from = token.from;
        let to = token.to;
        let hint = &src[from..to];
        parts_equal(hint, octets)
    } else {
        parts_equal(default_hint, octets)
    }
}

// Whether two strings count with the same hint.
fn hints_match(a: &[u8], left: Token, b: &[u8], right: Token, default_hint: &[u8]) -> bool
    requires { Lies (length a.now) left × Lies (length b.now) right }
    ensures { result ≡ equal (hint_in default_hint.now a.now left) (hint_in default_hint.now b.now right) }
{
    if right.hinted {
        let from = right.from;
        let to = right.to;
        let hint = &b[from..to];
        hint_is(a, left, default_hint, hint)
    } else {
        hint_is(a, left, default_hint, default_hint)
    }
}

// Whether two lexemes match.
fn tokens_match(a: &[u8], left: Token, b: &[u8], right: Token, default_hint: &[u8]) -> bool
    requires { Lies (length a.now) left × Lies (length b.now) right }
    ensures { result ≡ matches default_hint.now (lexeme_of a.now left) (lexeme_of b.now right) }
{
    if left.sort != right.sort {
        return false;
    }
    if left.sort < 2 {
        return true;
    }
    if hints_match(a, left, b, right, default_hint) {
        let left_data = data_of(a, left);
        let right_data = data_of(b, right);
        parts_equal(left_data, right_data)
    } else {
        false
    }
}

// Whether two strings without hints have the same octets.
fn spans_match(a: &[u8], left: usize, b: &[u8], right: usize) -> bool
    requires { Span (length a.now) left × Span (length b.now) right }
    ensures { result ≡ equal (spanned a.now left) (spanned b.now right) }
{
    let start = start_of(left);
    let end = end_of(left);
    let first = start_of(right);
    let last = end_of(right);
    let left_data = &a[start..end];
    let right_data = &b[first..last];
    parts_equal(left_data, right_data)
}

// Whether two sheets are the same. Each is one whole tree, so they have the same shape where their lexemes match to the end.
pub fn alike(a: &[u8], b: &[u8], default_hint: &[u8]) -> bool
    requires { Sheets a.now b.now }
    ensures { result ≡ same (the (decode₁ a.now)) (the (decode₁ b.now)) default_hint.now }
{
    let mut i: usize = 0;
    let mut j: usize = 0;
    while i < a.len() {
        if j >= b.len() {
            return false;
        }
        // Strings without hints are nearly all there is.
        if let Some(span) = string_at(a, i) {
            if let Some(other) = string_at(b, j) {
                if spans_match(a, span, b, other) {
                    i = end_of(span);
                    j = end_of(other);
                    continue;
                }
                return false;
            }
        }
        let left = token_at(a, i);
        let right = token_at(b, j);
        if tokens_match(a, left, b, right, default_hint) {
            i = left.next;
            j = right.next;
        } else {
            return false;
        }
    }
    j >= b.len()
}
