// A round: the monitor that an image says, a batch run on it, and the image rewritten (document 02, C-13: a call of the table's host).
//
// It takes buffers of any bytes and lengths, and any used number; it keeps nothing between calls.
#![tactic(auto)]

mod rounds;
mod sizes;

pub use rounds::run_round;
