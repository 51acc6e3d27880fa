// The candidate stack of a search: candidates with their weights, added, sorted and clamped, in numbers
// that are lent.
#![tactic(auto)]

pub mod add;
pub mod candidate;
pub mod clamp;
pub mod numbers;
pub mod sort;
