// A string's value, by its record.
ghost use Rattle.std.specs.Prelude.{◌≡◌, length};
ghost use Rattle.typed.specs.Lines.{row_kind, typed_row};
ghost use Rattle.values.specs.Kinds.{coded};
ghost use Rattle.shifts.specs.Known.{Spans, row_for, KnownAt, TypedAt, AmountAt};

use tables::Row;
use typed::Value;
use values::Kind;

// The kind that a string's hint tells.
fn row_kind(canonical: &[u8], row: Row) -> Kind
    requires { Spans row (length canonical.now) }
    ensures { coded result ≡ row_kind canonical.now (row_for row) }
{
    if row.kind == 1 {
        return values::kind_of(canonical, row.hint_start as usize, row.hint_end as usize);
    }
    Kind::Raw
}

// The value of a node with this record.
fn typed_row(canonical: &[u8], row: Row) -> Option<Value>
    requires { Spans row (length canonical.now) }
    ensures { result ≡ typed_row canonical.now (row_for row) }
{
    if row.kind == 2 {
        return None;
    }
    let kind = row_kind(canonical, row);
    values::value_by(
        kind,
        canonical,
        row.data_start as usize,
        row.data_end as usize,
    )
}

// A node's value.
pub fn typed_at(canonical: &[u8], notes: &[usize], nodes: usize, node: usize) -> Option<Value>
    requires { KnownAt canonical.now notes.now nodes node }
    ensures { TypedAt canonical.now notes.now nodes node result }
{
    typed_row(canonical, tables::row_of(notes, node))
}

// The double of an `f64` string, if it is one.
#[tactic(auto, unfolding(crate::specs::Known::amount_of))]
pub fn amount_at(canonical: &[u8], notes: &[usize], nodes: usize, node: usize) -> Option<f64>
    requires { KnownAt canonical.now notes.now nodes node }
    ensures { AmountAt canonical.now notes.now nodes node result }
{
    match typed_at(canonical, notes, nodes, node)? {
        Value::Double(x) => Some(x),
        Value::Single(_) | Value::Whole(_) | Value::Raw { .. } => None,
    }
}
