// Base-64 letters: three octets give four (RFC 4648's alphabet).
#![tactic(auto)]

ghost use Rattle.std.specs.Prelude.{◌≡◌, ◌<◌, get_or};
ghost use Rattle.model.specs.Write.{letter_of};
ghost use Rattle.letters.specs.Groups.{letters_of};

mod alphabet_list;

// The letter of a value.
fn letter_from(v: u8) -> u8
    requires { v < 64 }
    ensures { result ≡ letter_of v }
{
    alphabet_list::ALPHABET[v as usize]
}

// The four letters of three octets.
fn four_letters(a: u8, b: u8, c: u8) -> [u8; 4]
    ensures { result ≡ letters_of a b c }
{
    [
        letter_from(a / 4),
        letter_from(a % 4 * 16 + b / 16),
        letter_from(b % 16 * 4 + c / 64),
        letter_from(c % 64),
    ]
}

// The four letters of a group of three octets.
pub fn letters_of(group: [u8; 3]) -> [u8; 4]
    ensures { result ≡ letters_of (get_or group 0 0) (get_or group 1 0) (get_or group 2 0) }
{
    four_letters(group[0], group[1], group[2])
}
