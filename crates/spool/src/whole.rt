// All stores of an addition in one call, in their order.
ghost use Rattle.std.specs.Prelude.{◌≡◌, ◌+◌, length, drop, take};
ghost use Rattle.std.proofs.lemmas.List.Edits.{sets};
ghost use Rattle.spools.specs.Adding.{behind, stores, stored};
ghost use Rattle.spools.specs.Groups.{groups as groups_of};
ghost use Rattle.spools.specs.Spool.{entry};
ghost use Rattle.spool.specs.Whole.{Grouped, Room};

use groups::{group_at, groups_len};

// The 0 behind an entry, if the area has an octet there.
fn put_behind(area: &mut [u8], place: usize)
    ensures { area.new ≡ stored area.old (behind (length area.old) place) }
{
    if place >= area.len() {
        return;
    }
    area[place] = 0;
}

// The groups of a length but for the first, in an entry at a place.
fn put_groups(area: &mut [u8], at: usize, octets: usize, count: usize)
    requires { Grouped (length area.old) at octets count }
    ensures { area.new ≡ sets area.old (at + 1) (drop 1 (groups_of octets)) }
{
    if count == 1 {
        return;
    }
    area[at + 1] = group_at(octets, 1);
    if count == 2 {
        return;
    }
    area[at + 2] = group_at(octets, 2);
}

// The entry of a sheet at a place, with the 0 behind it: its first octet last.
pub fn put_entry(area: &mut [u8], at: usize, sheet: &[u8], octets: usize)
    requires { Room (length area.old) at (length sheet.now) octets }
    ensures { area.new ≡ stored area.old (stores (length area.old) at (entry (take octets sheet.now))) }
{
    let count = groups_len(octets);
    put_behind(area, at + count + octets);
    put_groups(area, at, octets, count);
    scan::copy(sheet, 0, octets, area, at + count);
    area[at] = group_at(octets, 0);
}
