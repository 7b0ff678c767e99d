// The stores of an addition: how many, and which octet each is.
ghost use Rattle.std.specs.Prelude.{◌≡◌, ◌-◌, ◌≤◌, ◌<◌};
ghost use Rattle.base.specs.Choice.{pick};
ghost use Rattle.spool.specs.Stores.{offset_of, stores_of_len, NextOf};

use crate::Adding;
use groups::groups_len;

// The next store: an octet of the sheet, from a place in it to one in the area, which is never the last store; or the octet of the entry at
// an offset, how many groups its length has, and whether it is the last store. The octet past the entry is 0.
#[derive(Clone, Copy, Debug, PartialEq, Eq)]
pub enum Next {
    Body {
        from: usize,
        to: usize,
    },
    Octet {
        offset: usize,
        groups: usize,
        last: bool,
    },
}

// Which octet of an entry is stored: the one behind it first, if the area has one, and the entry's first one last.
fn offset(behind: bool, len: usize, made: usize) -> usize
    requires { made ≤ len }
    ensures { result ≡ offset_of behind len made }
{
    if behind {
        if made == 0 {
            return len;
        }
        if made < len {
            return made;
        }
        return 0;
    }
    if made >= len {
        return 0;
    }
    if made + 1 < len {
        return made + 1;
    }
    0
}

// How many stores an addition has.
fn stores_len(behind: bool, len: usize) -> usize
    requires { len ≤ 20000 }
    ensures { result ≡ stores_of_len behind len }
{
    if behind {
        return len + 1;
    }
    len
}

// How many stores come before those of the sheet's octets: the one behind the entry, if the area has one, and all groups but the first.
fn sheet_first(behind: bool, groups: usize) -> usize
    requires { 0 < groups }
    ensures { result ≡ pick behind groups (groups - 1) }
{
    if behind {
        return groups;
    }
    groups - 1
}

// The next store of an addition, the common case first. A state that no start and no step handed back may have none.
pub fn next_store(adding: Adding, area: &[u8], sheet: &[u8]) -> Option<Next>
    ensures { NextOf adding area.now sheet.now result }
{
    let at = adding.at;
    let octets = adding.octets;
    let made = adding.made;
    if adding.done {
        return None;
    }
    if octets > sheet.len() {
        return None;
    }
    if octets > limits::CANONICAL {
        return None;
    }
    if at > area.len() {
        return None;
    }
    let groups = groups_len(octets);
    let len = groups + octets;
    let room = area.len() - at;
    if len > room {
        return None;
    }
    let behind = len < room;
    let first = sheet_first(behind, groups);
    if made >= first {
        let k = made - first;
        if k < octets {
            return Some(Next::Body {
                from: k,
                to: at + groups + k,
            });
        }
    }
    let total = stores_len(behind, len);
    if made >= total {
        return None;
    }
    let i = offset(behind, len, made);
    Some(Next::Octet {
        offset: i,
        groups,
        last: made + 1 >= total,
    })
}
