// A batch of records in one call (document 02, C-11: a tray).
//
// It takes any monitor and buffers of any bytes and lengths.
#![tactic(auto)]

mod batches;
mod sizes;

pub use batches::handle_batch;
