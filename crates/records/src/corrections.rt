// Elements put into lists, and nodes removed. What lent buffers hold afterwards is as where a node is replaced.
ghost use Rattle.std.specs.Prelude.{◌≡◌};
ghost use Rattle.model.specs.Corrections.{inserting, removing};
ghost use Rattle.answers.specs.Cases.{outcome};
ghost use Rattle.records.specs.Numbers.{numbers};

use crate::Record;
use crate::asked::{change, insert_at, remove_node};
use answers::Reading;

// The tree of a text becomes element k of the list that a node is.
pub fn insert(
    form: u32,
    text: &[u8],
    canonical: &mut [u8],
    records: &mut [Record],
    length: usize,
    nodes: usize,
    node: usize,
    k: usize,
) -> Reading
    ensures { outcome result canonical.new (numbers records.new) ≡ inserting form text.now canonical.old (numbers records.old) length nodes node k }
{
    let asked = insert_at(node, k);
    change(form, text, canonical, records, length, nodes, asked)
}

// A node is removed with all that is in it.
pub fn remove(
    canonical: &mut [u8],
    records: &mut [Record],
    length: usize,
    nodes: usize,
    node: usize,
) -> Reading
    ensures { outcome result canonical.new (numbers records.new) ≡ removing canonical.old (numbers records.old) length nodes node }
{
    let none: [u8; 1] = [0; 1];
    let asked = remove_node(node);
    change(1, &none, canonical, records, length, nodes, asked)
}
