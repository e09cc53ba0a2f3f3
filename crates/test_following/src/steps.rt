// One step each: a line or an event made of its text, given to the follower, and told.
use crate::shown::name;
use common::sizes::{MAX_ROLES, MAX_RULES};
use common::{Refusal, answer_number};
use follow::{State, matches};
use std::io;

// The names of the roles held.
fn roles_held(state: &State) -> &[u64] {
    let count = state.sheet.role_count.min(MAX_ROLES);
    &state.sheet.names[..count]
}

// The names of the rules whose pasts match now, in declared order.
fn rules_told(rt: &impl Print, state: &State) -> io::Result<()> {
    let count = state.sheet.rule_count.min(MAX_RULES);
    for (i, rule) in state.sheet.rule_names[..count].iter().enumerate() {
        if matches(&state.sheet.ends, &state.positions, i) {
            rt.write_all(b" ")?;
            name(rt, *rule)?;
        }
    }
    Ok(())
}

// A step: its text, its number, and the rules whose pasts match after it.
pub fn told(rt: &impl Print, state: &State, text: &[u8], number: u8) -> io::Result<()> {
    rt.write_all(text)?;
    print!(rt; " => {number}, matching:")?;
    rules_told(rt, state)?;
    rt.write_all(b"\n")
}

// A role line, declared: its name, or its refusal.
pub fn role_declared(state: &mut State, text: &[u8]) -> Result<u64, Refusal> {
    let line = code::role_line(text, roles_held(state));
    state.declare_role(line)
}

// A rule line, declared: its name, or its refusal.
pub fn rule_declared(state: &mut State, text: &[u8]) -> Result<u64, Refusal> {
    let line = code::rule_line(text, roles_held(state));
    state.declare_rule(line)
}

// An event as read, committed; refused where it names a role that is not held.
fn event_committed(state: &mut State, text: &[u8]) -> Result<(), Refusal> {
    let event = code::event_line(text, roles_held(state))?;
    state.commit(event);
    Ok(())
}

// A step that is a role line.
pub fn role(rt: &impl Print, state: &mut State, text: &[u8]) -> io::Result<()> {
    let number = answer_number(role_declared(state, text));
    told(rt, state, text, number)
}

// A step that is a rule line.
pub fn rule(rt: &impl Print, state: &mut State, text: &[u8]) -> io::Result<()> {
    let number = answer_number(rule_declared(state, text));
    told(rt, state, text, number)
}

// A step that is an event.
pub fn event(rt: &impl Print, state: &mut State, text: &[u8]) -> io::Result<()> {
    let number = answer_number(event_committed(state, text));
    rt.write_all(b"event ")?;
    told(rt, state, text, number)
}
