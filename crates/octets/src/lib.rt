// What an octet is to the grammar: its class, by one fixed list of 256 numbers (specs/Classes.antt says what each means),
// and its value as a digit, a base-64 letter or an escape.
// The lists are static: a look-up reads them where they lie, and nobody passes them on.
#![tactic(auto)]

ghost use Rattle.std.specs.Prelude.{◌≡◌};
ghost use Rattle.model.specs.Octets.{hexval, octval, escape, letter};
ghost use Rattle.octets.specs.Classes.{Class};
ghost use Rattle.octets.specs.Values.{Value};

mod class_list;
mod letter_list;

// Classes that a test asks for; specs/Classes.antt says what each class is. Other octets, and whitespace that is no space.
pub const OTHER: u8 = 0;

pub const BLANK: u8 = 3;

// From here on an octet stands for itself between quotation marks.
pub const SPACE: u8 = 4;

// From here on it is one of a token, and from the next on a hexadecimal digit: a letter, or above it a decimal digit.
pub const TOKEN: u8 = 14;

pub const HEX: u8 = 17;

// The class number of an octet.
pub fn class_of(b: u8) -> u8
    ensures { Class b result }
{
    class_list::CLASSES[b as usize]
}

// The value of a base-64 letter; 64 is none. No `Option`: `radix64::steps` asks for the values of known letters, and would unwrap each.
pub fn letter_of(b: u8) -> u8
    ensures { result ≡ letter b }
{
    letter_list::LETTERS[b as usize]
}

// The value of a hexadecimal digit of either case.
pub fn hex_of(b: u8) -> Option<u8>
    ensures { Value 16 (hexval b) result }
{
    let c = class_of(b);
    if c < HEX {
        return None;
    }
    // A and a are 1 past a multiple of 32.
    Some(if c == HEX { b % 32 + 9 } else { b - b'0' })
}

// The value of an octal digit.
pub fn octal_of(b: u8) -> Option<u8>
    ensures { Value 8 (octval b) result }
{
    if b < b'0' {
        return None;
    }
    if b > b'7' {
        return None;
    }
    Some(b - b'0')
}

// The octet that a backslash and this octet mean.
pub fn escape_of(e: u8) -> Option<u8>
    ensures { Value 256 (escape e) result }
{
    match e {
        98 => Some(8),
        116 => Some(9),
        118 => Some(11),
        110 => Some(10),
        102 => Some(12),
        114 => Some(13),
        34 => Some(34),
        39 => Some(39),
        92 => Some(92),
        97 => Some(7),
        63 => Some(63),
        _ => None,
    }
}
