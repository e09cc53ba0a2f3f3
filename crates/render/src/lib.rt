// Lines written out again as records. Document 02, C-12: "Line records are written with one space between two neighbouring words and no other space but the
// padding after the text."
//
// Every function takes any arguments. A line longer than a record's 126 bytes of text is cut there.
#![tactic(auto)]

mod codes;
mod lines;

pub use lines::{role_record, rule_record};
