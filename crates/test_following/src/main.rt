// Drives the follower's calls alone over a small sheet and prints, after each step, what became of it and which rules' pasts match now.
//
// A step is a role line, a rule line or an event, read by crate `code` from a text that is in the language. What became of it is 0, or document
// 01's refusal number; refusals 1 to 4 are the readers' and are not met here. A refused step leaves the state as it was. An event is committed as
// it is given: no chain is worked.
#![tactic(auto)]

pub mod full;
pub mod sheet;
pub mod shown;
pub mod steps;

use follow::State;
use full::{filled, unnamed};
use std::io;
use steps::{role_declared, rule_declared};

fn main(rt: HostRuntime) -> io::Result<()> {
    let mut state = State::new();
    sheet::declared(&rt, &mut state)?;
    sheet::followed(&rt, &mut state)?;
    sheet::joined(&rt, &mut state)?;
    sheet::met(&rt, &mut state)?;
    sheet::begun(&rt, &mut state)?;
    sheet::refused_roles(&rt, &mut state)?;
    sheet::refused_rules(&rt, &mut state)?;
    sheet::longest(&rt, &mut state)?;
    unnamed(&mut state, 30);
    sheet::ended(&rt, &mut state)?;
    unnamed(&mut state, 18);
    sheet::ended_last(&rt, &mut state)?;
    filled(&rt, &mut state, *b"role x00 under lamp", role_declared)?;
    sheet::full_of_roles(&rt, &mut state)?;
    filled(
        &rt,
        &mut state,
        *b"rule y00: <uv>; any; pass",
        rule_declared,
    )?;
    sheet::full_of_rules(&rt, &mut state)
}
