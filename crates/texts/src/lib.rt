// A text of any form becomes canonical octets in scratch, in one pass, with the sizes of its tree and a note for each node. Whatever
// takes a text takes it through these, and sees nothing of its form but whether it is its own octets.
#![tactic(auto)]

ghost use Rattle.std.specs.Prelude.{◌≡◌, length, eqb};
ghost use Rattle.model.specs.Grammar.{rules};
ghost use Rattle.model.specs.Answers.{place_of};
ghost use Rattle.model.specs.Automaton.{place};
ghost use Rattle.model.specs.Decode.{decode₁, decode₂, decode₃, decode};
ghost use Rattle.advanced.specs.Converted.{Lent};
ghost use Rattle.answers.specs.Cases.{Judges};
ghost use Rattle.texts.specs.Texts.{text_verdict, Takeable, Literal, Braced, Coded, Opens, Bare, Taken};

use answers::{Judging, Refusal};
use walk::{Broken, Extent, Measured};

// Row 1 or 2, of a form and a text's length.
pub fn row(form: u32, len: usize) -> Judging
    ensures { Judges (text_verdict form len) result }
{
    if form < 1 {
        return Err(Refusal::Form);
    }
    if form > 4 {
        return Err(Refusal::Form);
    }
    if len > limits::SOURCE {
        return Err(Refusal::SourceSize);
    }
    Ok(())
}

// Whether a text is base-64 in braces, by its form and its first octet.
fn braced(form: u32, text: &[u8]) -> bool
    ensures { Opens form text.now result }
{
    if form != 2 {
        return false;
    }
    if text.len() == 0 {
        return false;
    }
    if text[0] != b'{' {
        return false;
    }
    true
}

// Whether a text is basic text outside braces, which is canonical text.
pub fn bare(form: u32, text: &[u8]) -> bool
    ensures { Bare form text.now result }
{
    if form != 2 {
        return false;
    }
    if braced(form, text) {
        return false;
    }
    true
}

// Whether a text of the form is its own octets, whatever it holds: canonical text.
pub fn literal(form: u32) -> bool
    ensures { result ≡ eqb form 1 }
{
    form == 1
}

// Such a text: its octets stand for those in scratch, and nothing is copied.
pub fn take_literal(form: u32, text: &[u8], notes: &mut [usize]) -> Measured
    requires { Literal form (length text.now) }
    ensures { Taken (decode form text.now) (place_of form text.now) text.now notes.old notes.new result }
{
    sheets::note(text, notes)
}

// Canonical text is its own octets.
fn take_canonical(text: &[u8], scratch: &mut [u8], notes: &mut [usize]) -> Measured
    requires { Lent (length text.now) (length scratch.old) }
    ensures { Taken (decode₁ text.now) (place text.now) scratch.new notes.old notes.new result }
{
    let len = text.len();
    if len > limits::CANONICAL {
        return sheets::note(text, notes);
    }
    scan::copy(text, 0, len, scratch, 0);
    // Taken apart, so that what `note` stored by single numbers is not loaded by pairs, for which the processor would wait.
    match sheets::note(text, notes) {
        Ok(
            Extent {
                len: octets,
                nodes,
                depth,
            },
        ) => Ok(Extent {
            len: octets,
            nodes,
            depth,
        }),
        Err(Broken { place }) => Err(Broken { place }),
    }
}

// Base-64 in braces: what it decodes to is canonical text. No place is told of it.
fn take_braced(text: &[u8], scratch: &mut [u8], notes: &mut [usize]) -> Measured
    requires { Braced text.now × Lent (length text.now) (length scratch.old) }
    ensures { Taken (decode₂ rules text.now) 0 scratch.new notes.old notes.new result }
{
    let mut len: usize = 0;
    let Some(next) = marks::base(text, 1, b'}', scratch, 0, &mut len) else {
        return Err(Broken { place: 0 });
    };
    if next < text.len() {
        return Err(Broken { place: 0 });
    }
    let part = &scratch[..len];
    match sheets::note(part, notes) {
        Ok(sizes) => Ok(sizes),
        Err(_) => Err(Broken { place: 0 }),
    }
}

// Text of form 3, or with braces of form 4: what is in braces has octets of its own, so that the notes are then those of the canonical
// octets that the text becomes.
fn take_advanced(braces: bool, text: &[u8], scratch: &mut [u8], notes: &mut [usize]) -> Measured
    requires { Lent (length text.now) (length scratch.old) }
    ensures { Taken (decode₃ rules braces text.now) 0 scratch.new notes.old notes.new result }
{
    let sizes = advanced::convert(braces, text, scratch, notes)?;
    if braces {
        if sizes.len <= limits::CANONICAL {
            let part = &scratch[..sizes.len];
            let _ = sheets::note(part, notes);
        }
    }
    Ok(sizes)
}

// Text whose octets are spelled: advanced text, and base-64 in braces.
fn take_coded(form: u32, text: &[u8], scratch: &mut [u8], notes: &mut [usize]) -> Measured
    requires takeable { Takeable form (length text.now) (length scratch.old) }
    requires coded { Coded form text.now }
    ensures { Taken (decode form text.now) (place_of form text.now) scratch.new notes.old notes.new result }
{
    // Lent again, a slice goes on in registers.
    let text = &*text;
    if form >= 3 {
        return take_advanced(form == 4, text, scratch, notes);
    }
    take_braced(text, scratch, notes)
}

// The canonical octets of a text at the front of scratch, the sizes of the tree that it means, and the tree's notes as far as they
// have room. No limit of depth, nodes or octets decides whether the text is one.
pub fn take(form: u32, text: &[u8], scratch: &mut [u8], notes: &mut [usize]) -> Measured
    requires { Takeable form (length text.now) (length scratch.old) }
    ensures { Taken (decode form text.now) (place_of form text.now) scratch.new notes.old notes.new result }
{
    let text = &*text;
    // A function that is called at two places keeps a frame of its own, and canonical text does without it.
    if form >= 3 {
        return take_coded(form, text, scratch, notes);
    }
    if braced(form, text) {
        return take_coded(form, text, scratch, notes);
    }
    take_canonical(text, scratch, notes)
}
