// A shift line, and a list of lines.
ghost use Rattle.std.specs.Prelude.{◌≡◌};
ghost use Rattle.shifts.specs.Known.{KnownAt, HoursAt, CountAt, SumAt};

use super::strings::amount_at;
use answers::Refusal;
use typed::{Line, Misfit};

// The hours of a list of three `f64` strings, if it is one.
pub fn hours_at(canonical: &[u8], notes: &[usize], nodes: usize, node: usize) -> Option<Line>
    requires { KnownAt canonical.now notes.now nodes node }
    ensures { HoursAt canonical.now notes.now nodes node result }
{
    let row = tables::row_of(notes, node);
    if row.kind != 2 {
        return None;
    }
    if row.nodes != 4 {
        return None;
    }
    let ordinary = amount_at(canonical, notes, nodes, node + 1)?;
    let night = amount_at(canonical, notes, nodes, node + 2)?;
    let holiday = amount_at(canonical, notes, nodes, node + 3)?;
    Some(Line {
        ordinary,
        night,
        holiday,
    })
}

// The quarters of a line.
fn count_at(canonical: &[u8], notes: &[usize], nodes: usize, node: usize) -> Option<u32>
    requires { KnownAt canonical.now notes.now nodes node }
    ensures { CountAt canonical.now notes.now nodes node result }
{
    let line = hours_at(canonical, notes, nodes, node)?;
    hours::quarters_of(line)
}

// Lines added up.
#[derive(Clone, Copy, Debug, PartialEq, Eq)]
pub struct Added {
    pub lines: usize,
    pub quarters: u32,
}

// The sum of a list of lines, or the first node that is no line. A line is four nodes, so that the next begins four further on.
pub fn sum_at(canonical: &[u8], notes: &[usize], nodes: usize, node: usize) -> Result<Added, Misfit>
    requires { KnownAt canonical.now notes.now nodes node }
    ensures { SumAt canonical.now notes.now nodes node result }
{
    let row = tables::row_of(notes, node);
    if row.kind != 2 {
        return Err(Misfit {
            refusal: Refusal::NotLine,
            node,
        });
    }
    let stop = node + row.nodes as usize;
    let mut lines: usize = 0;
    let mut quarters: u32 = 0;
    for at in (node + 1..stop).step_by(4) {
        let Some(count) = count_at(canonical, notes, nodes, at) else {
            return Err(Misfit {
                refusal: Refusal::NotLine,
                node: at,
            });
        };
        lines += 1;
        quarters += count;
    }
    Ok(Added { lines, quarters })
}
