// A node's record: made of places, stored, and compared.
ghost use Rattle.std.specs.Prelude.{◌≡◌, ◌+◌, ◌*◌, ◌≤◌, ◌<◌, length, get_or};
ghost use Rattle.std.proofs.lemmas.List.Edits.{sets};
ghost use Rattle.base.specs.Choice.{equal};
ghost use Rattle.model.specs.Limits.{max_source};
ghost use Rattle.model.specs.Table.{width, plain_row, hinted_row, list_row};
ghost use Rattle.tables.specs.Rows.{record_list, RowIs, RowAt};

// A record: 0 string, 1 string with hint, 2 list; offsets are into the canonical octets.
#[derive(Clone, Copy, PartialEq, Eq)]
pub struct Row {
    pub kind: u32,
    pub start: u32,
    pub end: u32,
    pub nodes: u32,
    pub hint_start: u32,
    pub hint_end: u32,
    pub data_start: u32,
    pub data_end: u32,
}

// The record of a string.
pub fn plain_row(at: usize, start: usize, end: usize) -> Row
    requires { (at ≤ max_source) × (start ≤ max_source) × (end ≤ max_source) }
    ensures { RowIs result (plain_row at start end) }
{
    Row {
        kind: 0,
        start: at as u32,
        end: end as u32,
        nodes: 1,
        hint_start: 0,
        hint_end: 0,
        data_start: start as u32,
        data_end: end as u32,
    }
}

// The record of a string whose hint stands from `from` to `to`.
pub fn hinted_row(at: usize, from: usize, to: usize, start: usize, end: usize) -> Row
    requires { (at ≤ max_source) × (from ≤ max_source) × (to ≤ max_source) × (start ≤ max_source) × (end ≤ max_source) }
    ensures { RowIs result (hinted_row at from to start end) }
{
    Row {
        kind: 1,
        start: at as u32,
        end: end as u32,
        nodes: 1,
        hint_start: from as u32,
        hint_end: to as u32,
        data_start: start as u32,
        data_end: end as u32,
    }
}

// The record of a list.
pub fn list_row(start: usize, end: usize, nodes: usize) -> Row
    requires { (start < end) × (end ≤ max_source) × (nodes ≤ max_source) }
    ensures { RowIs result (list_row start end nodes) }
{
    Row {
        kind: 2,
        start: start as u32,
        end: end as u32,
        nodes: nodes as u32,
        hint_start: 0,
        hint_end: 0,
        data_start: (start + 1) as u32,
        data_end: (end - 1) as u32,
    }
}

// A node's record in a table, but for its last number.
pub fn row_at(table: &[u32], node: usize) -> Row
    requires { (node ≤ max_source) × (width * (node + 1) ≤ length table.now) }
    ensures { RowAt table.now node result }
{
    let at = node * limits::WIDTH;
    Row {
        kind: table[at],
        start: table[at + 1],
        end: table[at + 2],
        nodes: table[at + 3],
        hint_start: table[at + 4],
        hint_end: table[at + 5],
        data_start: table[at + 6],
        data_end: table[at + 7],
    }
}

// The last: the number of the list around the node.
pub fn parent_at(table: &[u32], node: usize) -> u32
    requires { (node ≤ max_source) × (width * (node + 1) ≤ length table.now) }
    ensures { result ≡ get_or table.now (node * width + 8) 0 }
{
    table[node * limits::WIDTH + 8]
}

// Whether two records, each with the number of the list around, are the same.
pub fn same_row(one: Row, up: u32, other: Row, over: u32) -> bool
    ensures { result ≡ equal (record_list one up) (record_list other over) }
{
    one == other && up == over
}

// A record stored, with the number of the list around its node.
pub fn put_row(table: &mut [u32], node: usize, row: Row, up: u32)
    requires { width * (node + 1) ≤ length table.old }
    ensures { table.new ≡ sets table.old (width * node) (record_list row up) }
{
    let at = node * limits::WIDTH;
    table[at] = row.kind;
    table[at + 1] = row.start;
    table[at + 2] = row.end;
    table[at + 3] = row.nodes;
    table[at + 4] = row.hint_start;
    table[at + 5] = row.hint_end;
    table[at + 6] = row.data_start;
    table[at + 7] = row.data_end;
    table[at + 8] = up;
}
