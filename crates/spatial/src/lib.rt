// Spatial candidates: a block in its tile, its neighbours read and matched, scans along a row or a
// column of them, and the surroundings in their order.
#![tactic(auto)]

pub mod around;
pub mod neighbours;
pub mod scan;
pub mod site;
pub mod take;
