// How far octets begin a string that is not there: only a text that is refused is asked for it (S 7.3).
ghost use Rattle.std.specs.Prelude.{◌≡◌, ◌≤◌, length};
ghost use Rattle.model.specs.Limits.{max_source};
ghost use Rattle.sheets.specs.Begins.{DigitsOn, StringBegins, HintBegins};

// Past digits, however many there are; past all that is left where a colon follows them.
fn digits_on(src: &[u8], at: usize) -> usize
    requires { (at ≤ length src.now) × (length src.now ≤ max_source) }
    ensures { DigitsOn src.now at result }
{
    for i in at..src.len() {
        let b = src[i];
        if b == b':' {
            return src.len();
        }
        if b < b'0' {
            return i;
        }
        if b > b'9' {
            return i;
        }
    }
    src.len()
}

// At a place where no verbatim string stands.
pub fn string_begins(src: &[u8], at: usize) -> usize
    requires { (at ≤ length src.now) × (length src.now ≤ max_source) }
    ensures { StringBegins src.now at result }
{
    if at >= src.len() {
        return at;
    }
    let b = src[at];
    if b < b'0' {
        return at;
    }
    if b > b'9' {
        return at;
    }
    if b == b'0' {
        return at + 1;
    }
    digits_on(src, at + 1)
}

// Where a hint's octets end, and no string follows them.
pub fn hint_begins(src: &[u8], to: usize) -> usize
    requires { (to ≤ length src.now) × (length src.now ≤ max_source) }
    ensures { HintBegins src.now to result }
{
    if to >= src.len() {
        return to;
    }
    if src[to] != b']' {
        return to;
    }
    string_begins(src, to + 1)
}
