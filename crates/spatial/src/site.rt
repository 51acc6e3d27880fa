// Where a block lies in its tile, and what of its surroundings a search may look at.
pub mod block;
