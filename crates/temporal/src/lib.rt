// Temporal candidates: projected motion cells, aimed at the wanted references.
#![tactic(auto)]

pub mod aim;
pub mod sweep;
