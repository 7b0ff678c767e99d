// A node's value, a shift line and a list of lines, by the notes of a sheet; and the entries over a table of numbers.
#![tactic(auto)]

mod lines; // lines.rt: lines, and lists of them
mod numbers; // numbers.rt: the entries over a table of numbers
mod strings; // strings.rt: a string's value

ghost use Rattle.std.specs.Prelude.{◌≡◌};
ghost use Rattle.shifts.specs.Known.{KnownIf, Values, HasLine, Sums};

use answers::Refusal;
pub use numbers::{line, value, week};
use typed::{Lining, Misfit, Shift, Summing, Valuing, Week};

// A node's value, where notes and table are told to be the sheet's own.
pub fn value_by(canonical: &[u8], notes: &[usize], nodes: usize, node: usize, own: bool) -> Valuing
    requires { KnownIf canonical.now notes.now nodes own }
    ensures { Values canonical.now notes.now nodes node own result }
{
    if !own {
        return Err(Refusal::NotOwn);
    }
    if node >= nodes {
        return Err(Refusal::NoNode);
    }
    strings::typed_at(canonical, notes, nodes, node).ok_or(Refusal::NotTyped)
}

// A node's line with its total.
pub fn line_by(canonical: &[u8], notes: &[usize], nodes: usize, node: usize, own: bool) -> Lining
    requires { KnownIf canonical.now notes.now nodes own }
    ensures { HasLine canonical.now notes.now nodes node own result }
{
    if !own {
        return Err(Refusal::NotOwn);
    }
    if node >= nodes {
        return Err(Refusal::NoNode);
    }
    let Some(line) = lines::hours_at(canonical, notes, nodes, node) else {
        return Err(Refusal::NotLine);
    };
    let Some(quarters) = hours::quarters_of(line) else {
        return Err(Refusal::NotLine);
    };
    Ok(Shift {
        line,
        total: hours::total_by(quarters),
    })
}

// The sum of a list of lines.
pub fn week_by(canonical: &[u8], notes: &[usize], nodes: usize, node: usize, own: bool) -> Summing
    requires { KnownIf canonical.now notes.now nodes own }
    ensures { Sums canonical.now notes.now nodes node own result }
{
    if !own {
        return Err(Misfit {
            refusal: Refusal::NotOwn,
            node: 0,
        });
    }
    if node >= nodes {
        return Err(Misfit {
            refusal: Refusal::NoNode,
            node: 0,
        });
    }
    let sum = lines::sum_at(canonical, notes, nodes, node)?;
    Ok(Week {
        lines: sum.lines,
        total: hours::total_by(sum.quarters),
    })
}
