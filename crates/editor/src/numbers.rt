// A sheet changed where the table is lent as numbers. Notes stand in local space, sized by both lengths: short ones do not pay
// for clearing the largest.
ghost use Rattle.std.specs.Prelude.{◌≡◌, ◌*◌, ◌≤◌, length};
ghost use Rattle.model.specs.Answers.{replacing};
ghost use Rattle.model.specs.Corrections.{inserting, removing};
ghost use Rattle.model.specs.Limits.{most_nodes};
ghost use Rattle.answers.specs.Cases.{outcome};
ghost use Rattle.plan.specs.Asked.{changing};
ghost use Rattle.editor.specs.Given.{Noteable};

use crate::change_by;
use answers::Reading;
use plan::Asked;

// The sheet judged with its table and noted, the octets changed, and the table told by the new notes.
#[inline(never)]
fn change_sized<const NOTES: usize>(
    form: u32,
    text: &[u8],
    canonical: &mut [u8],
    table: &mut [u32],
    old: usize,
    held: usize,
    asked: Asked,
) -> Reading
    requires noteable { Noteable held (2 * length text.now) NOTES }
    requires bounded { NOTES ≤ most_nodes }
    ensures { outcome result canonical.new table.new ≡ changing asked form text.now canonical.old table.old old held }
{
    let mut notes: [usize; NOTES] = [0; NOTES];
    let own = lookup::own_notes(canonical, old, table, held, &mut notes);
    let records = table.len() / limits::WIDTH;
    let sizes = change_by(
        form, text, canonical, &mut notes, own, records, old, held, asked,
    )?;
    splice::retell(&notes, table, held, sizes.nodes);
    Ok(sizes)
}

// By both lengths.
fn change(
    form: u32,
    text: &[u8],
    canonical: &mut [u8],
    table: &mut [u32],
    old: usize,
    held: usize,
    asked: Asked,
) -> Reading
    ensures { outcome result canonical.new table.new ≡ changing asked form text.now canonical.old table.old old held }
{
    if held <= limits::SHORT_NOTES / 3 {
        if text.len() <= limits::SHORT_NOTES / 3 {
            return change_sized::<{ limits::SHORT_NOTES }>(
                form, text, canonical, table, old, held, asked,
            );
        }
    }
    if held <= limits::MIDDLE_NOTES / 3 {
        if text.len() <= limits::MIDDLE_NOTES / 3 {
            return change_sized::<{ limits::MIDDLE_NOTES }>(
                form, text, canonical, table, old, held, asked,
            );
        }
    }
    change_sized::<{ limits::NODES }>(form, text, canonical, table, old, held, asked)
}

// A node of the sheet with this length, node count and table gives way to the tree of a text of the form named (see `reader::read`).
// In a refusal both lent buffers hold what they held; in an acceptance what lies past the old and the
// new octets and records stays, and what lies between the new ones and larger old ones is zeroed.
pub fn replace(
    form: u32,
    text: &[u8],
    canonical: &mut [u8],
    table: &mut [u32],
    length: usize,
    nodes: usize,
    node: usize,
) -> Reading
    ensures { outcome result canonical.new table.new ≡ replacing form text.now canonical.old table.old length nodes node }
{
    let asked = Asked::Replace { node };
    change(form, text, canonical, table, length, nodes, asked)
}

// S 8.7: the tree of a text of the form named becomes element k, from 0, of the list that a node is, where k is at most its element count.
pub fn insert(
    form: u32,
    text: &[u8],
    canonical: &mut [u8],
    table: &mut [u32],
    length: usize,
    nodes: usize,
    node: usize,
    k: usize,
) -> Reading
    ensures { outcome result canonical.new table.new ≡ inserting form text.now canonical.old table.old length nodes node k }
{
    let asked = Asked::Insert { node, k };
    change(form, text, canonical, table, length, nodes, asked)
}

// S 8.8: a node, which is any but node 0, is removed with all that is in it.
pub fn remove(
    canonical: &mut [u8],
    table: &mut [u32],
    length: usize,
    nodes: usize,
    node: usize,
) -> Reading
    ensures { outcome result canonical.new table.new ≡ removing canonical.old table.old length nodes node }
{
    let none: [u8; 1] = [0; 1];
    let asked = Asked::Remove { node };
    change(1, &none, canonical, table, length, nodes, asked)
}
