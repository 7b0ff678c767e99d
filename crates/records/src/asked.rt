// A sheet changed as asked: its records compared with it, its octets changed, and the records told by the new notes. These stand in
// local space, in three sizes by the sheet's node count and the text's length.
ghost use Rattle.std.specs.Prelude.{◌≡◌, ◌≤◌, ◌*◌, length};
ghost use Rattle.model.specs.Limits.{most_nodes};
ghost use Rattle.answers.specs.Cases.{outcome};
ghost use Rattle.plan.specs.Asked.{changing};
ghost use Rattle.plan.specs.declared.Asked.TheVariants.{Replace, Insert, Remove};
ghost use Rattle.editor.specs.Given.{Noteable};
ghost use Rattle.records.specs.Numbers.{numbers};

use crate::own::own_by;
use crate::{Record, tell};
use answers::Reading;
use plan::Asked;

// The nodes of a short sheet and the octets of a short text, which makes at most twice as many nodes beside the sheet's; and those of
// middle length.
const SHORT: usize = limits::SHORT_NOTES / 3;

const MIDDLE: usize = limits::MIDDLE_NOTES / 3;

// A node gives way to a text's tree.
pub fn replace_node(node: usize) -> Asked
    ensures { result ≡ Replace node }
{
    Asked::Replace { node }
}

// A text's tree becomes element k of a list.
pub fn insert_at(node: usize, k: usize) -> Asked
    ensures { result ≡ Insert node k }
{
    Asked::Insert { node, k }
}

// A node is removed.
pub fn remove_node(node: usize) -> Asked
    ensures { result ≡ Remove node }
{
    Asked::Remove { node }
}

// By the notes lent.
fn change_in(
    form: u32,
    text: &[u8],
    canonical: &mut [u8],
    records: &mut [Record],
    old: usize,
    held: usize,
    asked: Asked,
    notes: &mut [usize],
) -> Reading
    requires { Noteable held (2 * length text.now) (length notes.old) }
    ensures { outcome result canonical.new (numbers records.new) ≡ changing asked form text.now canonical.old (numbers records.old) old held }
{
    let own = own_by(canonical, old, records, held, notes);
    let sizes = editor::change_by(
        form,
        text,
        canonical,
        notes,
        own,
        records.len(),
        old,
        held,
        asked,
    )?;
    tell(records, notes, sizes.nodes, held);
    Ok(sizes)
}

// The same, by notes in a frame of its own, as in `read_sized`.
#[inline(never)]
fn change_sized<const NOTES: usize>(
    form: u32,
    text: &[u8],
    canonical: &mut [u8],
    records: &mut [Record],
    old: usize,
    held: usize,
    asked: Asked,
) -> Reading
    requires noteable { Noteable held (2 * length text.now) NOTES }
    requires bounded { NOTES ≤ most_nodes }
    ensures { outcome result canonical.new (numbers records.new) ≡ changing asked form text.now canonical.old (numbers records.old) old held }
{
    let mut notes: [usize; NOTES] = [0; NOTES];
    change_in(form, text, canonical, records, old, held, asked, &mut notes)
}

// By both lengths.
pub fn change(
    form: u32,
    text: &[u8],
    canonical: &mut [u8],
    records: &mut [Record],
    old: usize,
    held: usize,
    asked: Asked,
) -> Reading
    ensures { outcome result canonical.new (numbers records.new) ≡ changing asked form text.now canonical.old (numbers records.old) old held }
{
    if held <= SHORT {
        if text.len() <= SHORT {
            let mut notes: [usize; limits::SHORT_NOTES] = [0; limits::SHORT_NOTES];
            return change_in(form, text, canonical, records, old, held, asked, &mut notes);
        }
    }
    if held <= MIDDLE {
        if text.len() <= MIDDLE {
            return change_sized::<{ limits::MIDDLE_NOTES }>(
                form, text, canonical, records, old, held, asked,
            );
        }
    }
    change_sized::<{ limits::NODES }>(form, text, canonical, records, old, held, asked)
}
