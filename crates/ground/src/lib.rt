// What every later crate stands on: the laws of choices, answers, writes, signed numbers, tables
// and windows (specs/, proofs/), the few functions in which a signed number is taken apart or put
// together, the least and the most of two numbers, and numbers out of bytes and into them.
#![tactic(auto)]

pub mod bound;
pub mod read;
pub mod sign;
pub mod twos;
pub mod write;
