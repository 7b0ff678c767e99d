// Why something was refused: a row of S 7.1, 9.2, 10.2 or 10.3.

ghost use Rattle.std.specs.Prelude.{◌≡◌};
ghost use Rattle.answers.specs.Refusals.{number_of, place_in};
ghost use Rattle.answers.specs.declared.refusal.Refusal.TheVariants.{Syntax};

use std::error::Error;
use std::fmt;
use walk::Broken;

#[derive(Clone, Copy, Debug, PartialEq, Eq)]
pub enum Refusal {
    // the form is not 1 to 4; in writing, not 1 to 3
    Form,
    // the source is too long
    SourceSize,
    // the source is not in the form's language, with the place that is told of it (S 7.3); 0 where none is
    Syntax { place: usize },
    // lists nest too deep
    Depth,
    // there are more nodes than records are lent
    Nodes,
    // the canonical form is too long, or the result longer than the room lent
    Size,
    // a sheet is none, or a table is not its own
    NotOwn,
    // there is no node of that number
    NoNode,
    // the node is not a list or has too few elements, or node 0 is to be removed
    NoPlace,
    // an area is no spool
    Damaged,
    // a string's octets are no value of the kind that its hint names, or a value has no octets
    NotTyped,
    // what stands there is no shift line
    NotLine,
}

impl Refusal {
    // The row's number.
    pub fn number(self) -> u32
        ensures { result ≡ number_of self }
    {
        match self {
            Refusal::Form => 1,
            Refusal::SourceSize => 2,
            Refusal::Syntax { .. } => 3,
            Refusal::Depth => 4,
            Refusal::Nodes => 5,
            Refusal::Size => 6,
            Refusal::NotOwn => 7,
            Refusal::NoNode => 8,
            Refusal::NoPlace => 9,
            Refusal::Damaged => 10,
            Refusal::NotTyped => 11,
            Refusal::NotLine => 12,
        }
    }

    // The place in the text; 0 where none is told.
    pub fn place(self) -> usize
        ensures { result ≡ place_in self }
    {
        match self {
            Refusal::Syntax { place } => place,
            _ => 0,
        }
    }
}

impl fmt::Display for Refusal {
    fn fmt<W: fmt::Write>(&self, f: &mut fmt::Formatter<W>) -> fmt::Result {
        f.write_str(match self {
            Refusal::Form => "there is no such form",
            Refusal::SourceSize => "the text is too long",
            Refusal::Syntax { .. } => "the text is not in its form's language",
            Refusal::Depth => "lists nest too deep",
            Refusal::Nodes => "there are more nodes than records are lent",
            Refusal::Size => "the canonical form is too long, or the room lent too small",
            Refusal::NotOwn => "the octets are no sheet, or the table is not the sheet's own",
            Refusal::NoNode => "there is no node of that number",
            Refusal::NoPlace => "the node has no such place for an element, or is node 0",
            Refusal::Damaged => "the area is no spool",
            Refusal::NotTyped => "that is no value of its kind",
            Refusal::NotLine => "that is no shift line",
        })
    }
}

impl Error for Refusal {}

impl From<Broken> for Refusal {
    ghost from_gives = { λ b r. r ≡ Syntax b.place };

    fn from(broken: Broken) -> Refusal {
        Refusal::Syntax {
            place: broken.place,
        }
    }
}
