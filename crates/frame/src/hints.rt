// What a decoder says of a frame and its references, the distances that follow, and which references are projected.
pub mod description;
pub mod distances;
pub mod select;
