// Text in columns, written into a lent buffer.
//
// A writer takes the place where it begins and hands back the place after what it wrote. Every function takes any place and a buffer of any length:
// what there is no room for is left out, and nothing else of the buffer changes.
// Kept: buffer and place are two parameters. A writer that held both would borrow the buffer, and each call would owe besides that it is still the same loan.
#![tactic(auto)]

pub mod bytes;
pub mod fronts;
pub mod kinds;
pub mod texts;

pub use bytes::{blank, put, two_digits};
pub use fronts::front;
pub use kinds::ReplyKind;
pub use texts::{text, word, words};
