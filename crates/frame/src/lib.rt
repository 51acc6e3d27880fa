// A frame's setup: sizes, hints and selected references, from its description to the finished record
// that every later call is handed.
#![tactic(auto)]

pub mod extent;
pub mod hints;
pub mod mfmv;
pub mod record;
pub mod setup;
