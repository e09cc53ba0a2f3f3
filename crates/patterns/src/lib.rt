// Roles and patterns: which role is below which, and whether an event meets the pattern that a rule's code spells.
//
// Every function takes any sets of roles and any bytes of code: those that no call left are judged by too, in bounds and to an end.
#![tactic(auto)]

mod items;
mod judge;
mod meets;
mod roles;

pub use judge::{Judged, Matcher};
pub use roles::below;
