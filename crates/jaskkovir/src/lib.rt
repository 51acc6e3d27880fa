// The functions exported to C and Rust, on lent bytes. Numbers pass as themselves, a lent part as a
// pointer and a length. A frame record crosses as 109 bytes and a tile as 168, by `layout`; a job as 17,
// by batches; a search's question as 24, by `search`.
//
// Lists of slices, and a function's own test of their lengths (`init_lacks` and its like), stay as they
// are: C is handed them, and what C is promised cites each test's definition.
#![tactic(auto)]

pub mod batches;
mod blocks;
pub mod captures;
pub mod frames;
pub mod leaves;
pub mod motions;
pub mod searches;
pub mod tiles;
