// The spool, for C: a state by value is four numbers, and any numbers may stand in it.
ghost use Rattle.std.specs.Prelude.{◌≡◌};
ghost use Rattle.spool.specs.Cases.{state_of};
ghost use Rattle.spools.specs.Adding.{starting, stepping, committing, adding};
ghost use Rattle.spools.specs.Spool.{opening};
ghost use Rattle.etglavino_c.specs.Pointers.{flag};
ghost use Rattle.etglavino_c.specs.Spooling.{opening_of, state_in, state_numbers, begun, begun_of, stepped, stepped_of, adding_of};

use spool::Adding;

// 1 for yes, 0 for no.
fn yes(told: bool) -> u32
    ensures { result ≡ flag told }
{
    if told {
        return 1;
    }
    0
}

// The state that numbers say.
fn state_in(state: &[usize; 4]) -> Adding
    ensures { state_of result ≡ state_in state.now }
{
    Adding {
        at: state[0],
        octets: state[1],
        made: state[2],
        done: state[3] != 0,
    }
}

// A state handed out.
fn hand_state(adding: Adding, state: &mut [usize; 4])
    ensures { state.new ≡ state_numbers (state_of adding) }
{
    *state = [
        adding.at,
        adding.octets,
        adding.made,
        yes(adding.done) as usize,
    ];
}

#[unsafe(no_mangle)]
pub extern "C" fn etg_spool_open(
    area: &[u8],
    number: usize,
    count: &mut usize,
    start: &mut usize,
    end: &mut usize,
) -> u32
    ensures { opening_of result count.new start.new end.new area.now ≡ opening area.now number }
{
    match etglavino::spool_open(area, number) {
        Ok(contents) => {
            *count = contents.count;
            *start = contents.stands.start;
            *end = contents.stands.end;
            0
        }
        Err(refusal) => {
            *count = 0;
            *start = 0;
            *end = 0;
            refusal.number()
        }
    }
}

#[unsafe(no_mangle)]
pub extern "C" fn etg_spool_add_start(
    area: &[u8],
    sheet: &[u8],
    length: usize,
    state: &mut [usize; 4],
) -> u32
    ensures { begun result state.new ≡ begun_of (starting area.now sheet.now length) }
{
    match etglavino::spool_add_start(area, sheet, length) {
        Ok(fresh) => {
            hand_state(fresh, state);
            0
        }
        Err(unstarted) => {
            hand_state(unstarted.state, state);
            unstarted.refusal.number()
        }
    }
}

#[unsafe(no_mangle)]
pub extern "C" fn etg_spool_add_step(state: &mut [usize; 4], area: &mut [u8], sheet: &[u8]) -> u32
    ensures { stepped result state.new area.new ≡ stepped_of (stepping (state_in state.old) area.old sheet.now) }
{
    let before = state_in(state);
    let after = before.step(area, sheet);
    hand_state(after, state);
    yes(after.done)
}

#[unsafe(no_mangle)]
pub extern "C" fn etg_spool_add_commits(state: &[usize; 4], area: &[u8], sheet: &[u8]) -> u32
    ensures { result ≡ flag (committing (state_in state.now) area.now sheet.now) }
{
    let adding = state_in(state);
    yes(adding.commits(area, sheet))
}

#[unsafe(no_mangle)]
pub extern "C" fn etg_spool_add(area: &mut [u8], sheet: &[u8], length: usize) -> u32
    ensures { adding_of result area.new ≡ adding area.old sheet.now length }
{
    match etglavino::spool_add(area, sheet, length) {
        Ok(()) => 0,
        Err(refusal) => refusal.number(),
    }
}
