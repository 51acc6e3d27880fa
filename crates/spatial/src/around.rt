// A block's surroundings: the lines of neighbours on its two sides and the points between them, in
// the order in which a search looks at them.
pub mod far;
pub mod lines;
pub mod near;
