// The capture file, with a frame's description, its jobs and the buffers that they read; and playing
// it.
#![tactic(auto)]

pub mod entries;
pub mod file;
pub mod player;
