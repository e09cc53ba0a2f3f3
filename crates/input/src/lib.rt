// The records of an open file, one at a time, so that a file may be of any length.
//
// What is done with a record is each program's own, and is handed to `each_record` as a closure.
#![tactic(auto)]

pub mod output;
pub mod records;

pub use output::written;
pub use records::{Stop, each_record, next, read_full};
