// Where a superblock row's records lie: its row table and the setup that makes it, and the splat of a
// block's record over them.
#![tactic(auto)]

pub mod setup;
pub mod splats;
pub mod table;
