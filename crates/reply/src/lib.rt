// The reply to a record: 50 bytes. Document 01, "Reply, 50 bytes".
//
// Every function takes any arguments.
#![tactic(auto)]

pub mod replies;

pub use replies::{plain, reply};
