// A sheet changed in place: a node gives way to the tree of a text, a text's tree comes into a list, or a node is removed. Text, sheet,
// table, node and room are judged before anything is written, so that a refusal changes nothing. The core goes by the sheet's notes, and
// leaves those of the new sheet: the table, as numbers or as records, is its caller's.
#![tactic(auto)]

mod numbers; // numbers.rt: the table as numbers

ghost use Rattle.std.specs.Prelude.{◌≡◌, true, false, ◌*◌, ◌≤◌, length};
ghost use Rattle.std.proofs.Math.Option.{some};
ghost use Rattle.model.specs.Tree.{list, nil};
ghost use Rattle.texts.specs.Texts.{Takeable};
ghost use Rattle.plan.specs.Asked.{texted};
ghost use Rattle.plan.specs.Planned.{Known};
ghost use Rattle.editor.specs.Given.{Noteable, GivesTree, GivesMeant, GivesText};
ghost use Rattle.editor.specs.Placed.{Placeable, Placed};

use answers::Reading;
pub use numbers::{insert, remove, replace};
use plan::Asked;
use splice::Growth;
use walk::Extent;

// A sheet of `old` octets and `held` nodes is changed: what comes has these sizes, and its octets stand in scratch.
fn place(
    canonical: &mut [u8],
    notes: &mut [usize],
    own: bool,
    records: usize,
    old: usize,
    held: usize,
    asked: Asked,
    scratch: &[u8],
    text: Extent,
) -> Reading
    requires placeable { Placeable asked scratch.now text }
    requires known { Known canonical.old old held records notes.old own }
    requires noteable { Noteable held text.nodes (length notes.old) }
    ensures { Placed asked scratch.now text canonical.old canonical.new old held records own notes.new result }
{
    let len = text.len;
    let plan = plan::judge(canonical, old, notes, own, records, held, asked, text)?;
    splice::gap(canonical, plan.start, plan.end, old, len);
    scan::copy(scratch, 0, len, canonical, plan.start);
    let by = Growth {
        old,
        len: plan.length,
        held,
        count: plan.nodes,
    };
    let octets = &scratch[..len];
    splice::renote(
        octets, notes, plan.first, plan.start, plan.end, text.nodes, by,
    );
    Ok(splice::end(canonical, old, plan.length, plan.nodes))
}

// By a text that rows 1 and 2 don't apply to, in the local space lent. Its notes are made where they belong, once it has its place.
fn change_in(
    form: u32,
    text: &[u8],
    canonical: &mut [u8],
    notes: &mut [usize],
    own: bool,
    records: usize,
    old: usize,
    held: usize,
    asked: Asked,
    scratch: &mut [u8],
) -> Reading
    requires takeable { Takeable form (length text.now) (length scratch.old) }
    requires known { Known canonical.old old held records notes.old own }
    requires noteable { Noteable held (2 * length text.now) (length notes.old) }
    requires asked_value { texted asked ≡ true }
    ensures { GivesMeant asked form text.now canonical.old old held records own canonical.new notes.new result }
{
    let mut none: [usize; 1] = [0; 1];
    let sizes = texts::take(form, text, scratch, &mut none)?;
    place(
        canonical, notes, own, records, old, held, asked, scratch, sizes,
    )
}

// The same, by scratch in a frame of its own.
#[inline(never)]
fn change_sized<const SCRATCH: usize>(
    form: u32,
    text: &[u8],
    canonical: &mut [u8],
    notes: &mut [usize],
    own: bool,
    records: usize,
    old: usize,
    held: usize,
    asked: Asked,
) -> Reading
    requires takeable { Takeable form (length text.now) SCRATCH }
    requires known { Known canonical.old old held records notes.old own }
    requires noteable { Noteable held (2 * length text.now) (length notes.old) }
    requires asked_value { texted asked ≡ true }
    ensures { GivesMeant asked form text.now canonical.old old held records own canonical.new notes.new result }
{
    let mut scratch: [u8; SCRATCH] = [0; SCRATCH];
    change_in(
        form,
        text,
        canonical,
        notes,
        own,
        records,
        old,
        held,
        asked,
        &mut scratch,
    )
}

// By a text of the form named. A short text does not pay for the scratch of the largest.
fn text_by(
    form: u32,
    text: &[u8],
    canonical: &mut [u8],
    notes: &mut [usize],
    own: bool,
    records: usize,
    old: usize,
    held: usize,
    asked: Asked,
) -> Reading
    requires known { Known canonical.old old held records notes.old own }
    requires noteable { Noteable held (2 * length text.now) (length notes.old) }
    requires asked_value { texted asked ≡ true }
    ensures { GivesText asked form text.now canonical.old old held records own canonical.new notes.new result }
{
    texts::row(form, text.len())?;
    if text.len() <= limits::SHORT {
        let mut scratch: [u8; limits::SHORT_SCRATCH] = [0; limits::SHORT_SCRATCH];
        return change_in(
            form,
            text,
            canonical,
            notes,
            own,
            records,
            old,
            held,
            asked,
            &mut scratch,
        );
    }
    if text.len() <= limits::MIDDLE {
        return change_sized::<{ limits::MIDDLE_SCRATCH }>(
            form, text, canonical, notes, own, records, old, held, asked,
        );
    }
    change_sized::<{ limits::LONG_SCRATCH }>(
        form, text, canonical, notes, own, records, old, held, asked,
    )
}

// By nothing: what stood there goes.
fn strike(
    canonical: &mut [u8],
    notes: &mut [usize],
    own: bool,
    records: usize,
    old: usize,
    held: usize,
    asked: Asked,
) -> Reading
    requires known { Known canonical.old old held records notes.old own }
    requires noteable { Noteable held 0 (length notes.old) }
    requires asked_value { texted asked ≡ false }
    ensures { GivesTree asked (some (list nil)) canonical.old old held records own canonical.new notes.new result }
{
    let none: [u8; 1] = [0; 1];
    let sizes = Extent {
        len: 0,
        nodes: 0,
        depth: 0,
    };
    place(
        canonical, notes, own, records, old, held, asked, &none, sizes,
    )
}

// The sheet with this length, node count and notes changed as asked, where sheet and table are told to be good or not, and so many
// records are lent. A removal has no text, and what is lent for one is not looked at.
pub fn change_by(
    form: u32,
    text: &[u8],
    canonical: &mut [u8],
    notes: &mut [usize],
    own: bool,
    records: usize,
    old: usize,
    held: usize,
    asked: Asked,
) -> Reading
    requires known { Known canonical.old old held records notes.old own }
    requires noteable { Noteable held (2 * length text.now) (length notes.old) }
    ensures { GivesText asked form text.now canonical.old old held records own canonical.new notes.new result }
{
    if plan::has_text(asked) {
        return text_by(form, text, canonical, notes, own, records, old, held, asked);
    }
    strike(canonical, notes, own, records, old, held, asked)
}
