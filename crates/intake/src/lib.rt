// One door for records: what a record asks, told by the names held, and the declaring of lines.
//
// Asking reads lent slices and changes nothing; declaring changes the state that it is lent. Every function takes any state and any bytes.
#![tactic(auto)]

mod asks;
mod lines;

pub use asks::{Request, ask};
pub use lines::{declare, role_names};
