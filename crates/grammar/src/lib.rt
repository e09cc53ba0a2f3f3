// The rule language: recognizers of role lines and rule lines, over any bytes of any length.
//
// Each reader takes the unread part of a record's text and answers what is left of it after its form, a part of the same text that starts in its
// middle, for the next reader. An event is read by the crate `code`, in one pass with its ids.
#![tactic(auto)]

mod leaves;
mod lines;
mod pasts;
mod patterns;
mod responses;

pub use lines::{LineKind, line_kind};
