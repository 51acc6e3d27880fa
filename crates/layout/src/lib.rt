// Records in lent bytes: a frame record in 109, a tile in 168, and a capture file's description of a
// frame in 67. Each is read where it stands; the first two are written too, as one piece over the
// start of a lent part.
#![tactic(auto)]

pub mod description_bytes;
pub mod frame_bytes;
pub mod start;
pub mod tile_bytes;
