// Rule code: the text of a line with ids for the names held. A rule's body becomes one byte a token.
//
// Every function takes any bytes and any table of names, of any length, and its result is named for all of them. A name past the first 127 of a
// table has no id, and of a text the first 126 tokens are coded: a record's text has no more.
#![tactic(auto)]

mod count;
mod encode;
mod events;
mod ids;
mod lines;

pub use count::patterns;
pub use encode::Encoded;
pub use events::{Event, event_ids, event_line};
pub use lines::{RoleLine, RuleLine, role_line, rule_line};
