// A running state as ten numbers, for callers in other languages. Any numbers are allowed.
ghost use Rattle.std.specs.Prelude.{◌≡◌};
ghost use Rattle.pieces.specs.Coded.{bit, phase_in, kind_of, hint_of, number_of, state_in, state_numbers};

use crate::state::State;
use crate::track::{Phase, Track};

fn phase_in(kind: usize, hint: bool, number: usize) -> Phase
    ensures { result ≡ phase_in kind hint number }
{
    if kind == 0 {
        return Phase::Between;
    }
    if kind == 1 {
        return Phase::Sizing { hint };
    }
    if kind == 2 {
        return Phase::Counting { hint, number };
    }
    if kind == 3 {
        return Phase::Filling { hint, left: number };
    }
    if kind == 4 {
        return Phase::Bracket;
    }
    Phase::Dead
}

fn kind_of(phase: Phase) -> usize
    ensures { result ≡ kind_of phase }
{
    match phase {
        Phase::Between => 0,
        Phase::Sizing { hint: _ } => 1,
        Phase::Counting { hint: _, number: _ } => 2,
        Phase::Filling { hint: _, left: _ } => 3,
        Phase::Bracket => 4,
        Phase::Dead => 5,
    }
}

fn hint_of(phase: Phase) -> bool
    ensures { result ≡ hint_of phase }
{
    match phase {
        Phase::Between => false,
        Phase::Sizing { hint } => hint,
        Phase::Counting { hint, number: _ } => hint,
        Phase::Filling { hint, left: _ } => hint,
        Phase::Bracket => false,
        Phase::Dead => false,
    }
}

fn number_of(phase: Phase) -> usize
    ensures { result ≡ number_of phase }
{
    match phase {
        Phase::Between => 0,
        Phase::Sizing { hint: _ } => 0,
        Phase::Counting { hint: _, number } => number,
        Phase::Filling { hint: _, left } => left,
        Phase::Bracket => 0,
        Phase::Dead => 0,
    }
}

fn bit(told: bool) -> usize
    ensures { result ≡ bit told }
{
    if told { 1 } else { 0 }
}

// The state that numbers say.
pub fn state_in(state: &[usize; 10]) -> State
    ensures { result ≡ state_in state.now }
{
    let phase = phase_in(state[0], state[1] != 0, state[2]);
    let track = Track {
        phase,
        opened: state[3],
        deepest: state[4],
        seen: state[5],
        taken: state[6],
    };
    State {
        track,
        fed: state[7],
        room: state[8],
        lent: state[9],
    }
}

// A state handed out.
pub fn hand_state(x: State, state: &mut [usize; 10])
    ensures { state.new ≡ state_numbers x }
{
    let track = x.track;
    let phase = track.phase;
    *state = [
        kind_of(phase),
        bit(hint_of(phase)),
        number_of(phase),
        track.opened,
        track.deepest,
        track.seen,
        track.taken,
        x.fed,
        x.room,
        x.lent,
    ];
}
