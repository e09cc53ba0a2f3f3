// Lists of events, committed.
use crate::events::next;
use follow::{State, matches};

// Whether rule 0's past matches now.
fn first_matches(state: &State) -> bool {
    0 < state.sheet.rule_count && matches(&state.sheet.ends, &state.positions, 0)
}

// Into out[k]: whether rule 0's past matches after k events of the list.
pub fn marked(state: &mut State, events: &[u8], out: &mut [u8]) {
    let mut left = events;
    for mark in out {
        *mark = u8::from(first_matches(state));
        let Some((event, rest)) = next(left) else {
            return;
        };
        state.commit(event);
        left = rest;
    }
}

// The list of events, committed in order.
fn committed_once(state: &mut State, events: &[u8]) {
    let mut left = events;
    // Kept: a loop over what is left, as the list ends where no event can be split off.
    while let Some((event, rest)) = next(left) {
        state.commit(event);
        left = rest;
    }
}

// The list of events, committed `rounds` times over.
pub fn committed(state: &mut State, events: &[u8], rounds: u32) {
    // Kept: a loop that does one thing so many times.
    for _ in 0..rounds {
        committed_once(state, events);
    }
}

// A number made from all rules' positions, in their order.
pub fn digest(state: &State) -> u64 {
    state
        .positions
        .iter()
        .take(state.sheet.rule_count)
        .fold(0, |sum, positions| mixed(sum, *positions))
}

// One past 56 bits.
const CUT: u64 = 1 << 56;

// A rule's positions mixed into the digest; both are cut to 56 bits, so that nothing wraps.
fn mixed(sum: u64, positions: u64) -> u64 {
    sum % CUT * 31 + positions % CUT
}
