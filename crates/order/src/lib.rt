// Steps in any order: a batch that was admitted, and a list of steps.
#![tactic(auto)]

pub mod play;
pub mod steps;
