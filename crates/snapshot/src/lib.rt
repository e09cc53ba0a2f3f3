// Snapshots: the monitor written out as an image of records, and an image taken back (document 02, C-12: places to return to).
//
// Every function takes any monitor and buffers of any bytes and lengths.
#![tactic(auto)]

mod digits;
mod keeping;
mod lines;
mod marks;
mod restoring;
mod writing;

pub use keeping::keep;
pub use restoring::restore;
