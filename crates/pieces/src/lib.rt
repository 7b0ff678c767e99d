// Canonical text in pieces: the reader's running state, by value, and the end.
//
// What a piece brings goes into the lent sheet as one run, as far as its room and 16,384 go, and nothing else is done with it. The
// end reads it there. A text that does not fit there is refused in any case: from where it goes past, an automaton follows it octet
// by octet, for the number that refuses it.
#![tactic(auto)]

mod coded; // coded.rt: a state as numbers
mod ending; // ending.rt: the end
mod numbers; // numbers.rt: numbers that stop one past the longest text
mod state; // state.rt: the running state, and a piece fed to it
mod track; // track.rt: how far a text has come, octet by octet

pub use coded::{hand_state, state_in};
pub use ending::{end, end_coded, end_notes};
pub use state::{Fed, State};
pub use track::{Phase, Track};
