// Splat: a block's record laid over its place in the frame's records.
pub mod splat;
