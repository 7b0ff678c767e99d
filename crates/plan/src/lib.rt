// A change judged, with nothing written: where it takes place, the sizes of the new tree, and whether that tree has room. What comes to
// stand there is known by its sizes alone, the sheet by its notes, and the table by the number of its records and whether it is the
// sheet's own.
#![tactic(auto)]

mod spots; // spots.rt: where a change takes place

ghost use Rattle.std.specs.Prelude.{◌≡◌};
ghost use Rattle.plan.specs.Asked.{texted};
ghost use Rattle.plan.specs.Planned.{Known, Small, Resizable, resized, Plans};

use answers::Refusal;
use spots::find;
use walk::Extent;

// What is asked: a node gives way to a text's tree, a text's tree becomes element k of a list, or a node is removed.
#[derive(Clone, Copy)]
pub enum Asked {
    Replace { node: usize },
    Insert { node: usize, k: usize },
    Remove { node: usize },
}

// The nodes that give way: the first one's number and how many they are, their octets, and how many lists are around them.
#[derive(Clone, Copy, Debug, PartialEq, Eq)]
pub struct Spot {
    pub first: usize,
    pub count: usize,
    pub start: usize,
    pub end: usize,
    pub level: usize,
}

// A spot, or row 7, 8 or 9.
pub type Found = Result<Spot, Refusal>;

// The first node that gives way, the octets that do, and the new length and node count.
#[derive(Clone, Copy, Debug, PartialEq, Eq)]
pub struct Plan {
    pub first: usize,
    pub start: usize,
    pub end: usize,
    pub length: usize,
    pub nodes: usize,
}

// Whether a text comes with it.
pub fn has_text(asked: Asked) -> bool
    ensures { result ≡ texted asked }
{
    match asked {
        Asked::Replace { node: _ } => true,
        Asked::Insert { node: _, k: _ } => true,
        Asked::Remove { node: _ } => false,
    }
}

// The sizes of a tree of which a part gives way to what has the sizes given, all 0 where nothing comes. The old tree fits, so that the new one is too deep
// only where the lists around the part and the text's together are: the depth told is theirs.
fn resize(length: usize, nodes: usize, spot: Spot, text: Extent) -> Extent
    requires { Resizable length nodes spot.start spot.end spot.count spot.level text }
    ensures { result ≡ resized length nodes spot.start spot.end spot.count spot.level text }
{
    Extent {
        len: length - (spot.end - spot.start) + text.len,
        nodes: nodes - spot.count + text.nodes,
        depth: spot.level + text.depth,
    }
}

// Rows 7, 8, 9, 4, 5 and 6, where so many records are lent.
pub fn judge(
    canonical: &[u8],
    length: usize,
    notes: &[usize],
    own: bool,
    records: usize,
    nodes: usize,
    asked: Asked,
    text: Extent,
) -> Result<Plan, Refusal>
    requires small { Small text }
    requires known { Known canonical.now length nodes records notes.now own }
    ensures { Plans canonical.now length nodes records own asked text result }
{
    let spot = find(notes, own, nodes, asked)?;
    let to = resize(length, nodes, spot, text);
    rooms::room(to, canonical.len(), records)?;
    Ok(Plan {
        first: spot.first,
        start: spot.start,
        end: spot.end,
        length: to.len,
        nodes: to.nodes,
    })
}
