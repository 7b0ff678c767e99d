// Lengths in groups of seven bits; the sheet of the entry at a place, and the octets of one that is to be added.
#![tactic(auto)]

mod lengths; // lengths.rt: lengths, read and told

ghost use Rattle.std.specs.Prelude.{◌≡◌, ◌≤◌, ◌<◌, length, get_or, take};
ghost use Rattle.model.specs.Limits.{max_canonical};
ghost use Rattle.spools.specs.Spool.{entry};
ghost use Rattle.groups.specs.Places.{SheetAt};
ghost use Rattle.groups.specs.Octets.{Entried, Long};

use answers::Part;
use lengths::{Length, length_at};
pub use lengths::{group_at, groups_len};

// The sheet of the entry at a place, if there is one.
pub fn sheet_at(area: &[u8], at: usize) -> Option<Part>
    requires { at < length area.now }
    ensures { SheetAt area.now at result }
{
    let Length { value, next } = length_at(area, at)?;
    if value > area.len() - next {
        return None;
    }
    let end = next + value;
    let part = &area[next..end];
    if lookup::sheet(part, value) {
        return Some(Part { start: next, end });
    }
    None
}

// How many octets an entry has.
pub fn entry_len(octets: usize) -> usize
    requires { octets ≤ max_canonical }
    ensures { Long octets result }
{
    groups_len(octets) + octets
}

// An octet of the entry of a sheet, whose length has so many groups; 0 behind it.
pub fn entry_at(sheet: &[u8], octets: usize, groups: usize, i: usize) -> u8
    requires { Entried (length sheet.now) octets groups }
    ensures { result ≡ get_or (entry (take octets sheet.now)) i 0 }
{
    if i < groups {
        return group_at(octets, i);
    }
    let k = i - groups;
    if k < octets {
        return sheet[k];
    }
    0
}
