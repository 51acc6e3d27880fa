// What lies in the lent buffers: positions in two units, block sizes, motion cells of 5 bytes and
// block records of 12.
#![tactic(auto)]

pub mod block;
pub mod cell;
pub mod pos;
pub mod size;
