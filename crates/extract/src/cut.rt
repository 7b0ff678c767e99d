// An extract's octets: a sheet's, but for what stands between the parentheses of private lists.
ghost use Rattle.std.specs.Prelude.{◌≡◌, ◌-◌, ◌≤◌, length, take, drop};
ghost use Rattle.base.specs.Choice.{equal};
ghost use Rattle.extracts.specs.Extract.{word};
ghost use Rattle.extract.specs.Cut.{Node, Tells, Cuttable, Cuts};

// Whether a part is the word that makes a list private.
fn is_word(src: &[u8], start: usize, end: usize) -> bool
    requires { (start ≤ end) × (end ≤ length src.now) }
    ensures { result ≡ equal (take (end - start) (drop start src.now)) word }
{
    if end - start != 7 {
        return false;
    }
    if src[start] != b'p' {
        return false;
    }
    if src[start + 1] != b'r' {
        return false;
    }
    if src[start + 2] != b'i' {
        return false;
    }
    if src[start + 3] != b'v' {
        return false;
    }
    if src[start + 4] != b'a' {
        return false;
    }
    if src[start + 5] != b't' {
        return false;
    }
    src[start + 6] == b'e'
}

// Whether a node is a private list: its first element, the node after it, is the word without a hint.
fn private(src: &[u8], notes: &[usize], nodes: usize, node: usize) -> bool
    requires { Node src.now notes.now nodes node }
    ensures { Tells src.now notes.now nodes node result }
{
    let row = tables::row_of(notes, node);
    if row.kind != 2 {
        return false;
    }
    if row.nodes < 2 {
        return false;
    }
    let first = tables::row_of(notes, node + 1);
    if first.kind != 0 {
        return false;
    }
    is_word(src, first.data_start as usize, first.data_end as usize)
}

// The octets of the extract, from the front; their number. A private list's notes are hopped over, and its octets are not copied.
pub fn cut(src: &[u8], notes: &[usize], nodes: usize, out: &mut [u8]) -> usize
    requires { Cuttable src.now notes.now nodes (length out.old) }
    ensures { Cuts src.now notes.now nodes out.old out.new result }
{
    let mut node: usize = 0;
    let mut from: usize = 0;
    let mut pos: usize = 0;
    while node < nodes {
        if private(src, notes, nodes, node) {
            let row = tables::row_of(notes, node);
            pos = scan::copy(src, from, row.data_start as usize - from, out, pos);
            from = row.data_end as usize;
            node += row.nodes as usize;
        } else {
            node += 1;
        }
    }
    scan::copy(src, from, src.len() - from, out, pos)
}
