// A candidate of a search.
use cells::block::MvPair;

// A single search has ZERO for each second vector.
#[derive(Clone, Copy)]
pub struct Candidate {
    pub mv: MvPair,
    pub weight: u32,
}
