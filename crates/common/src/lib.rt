// What every layer shares: document 01's sizes and limits (specs/Limits.antt), why a call is refused, sets of numbers, and the front of a slice.
//
// Every function takes any arguments.
#![tactic(auto)]

pub mod refusals;
pub mod sets;
pub mod sizes;
pub mod slices;

pub use refusals::{Refusal, answer_number};
pub use slices::prefix;
