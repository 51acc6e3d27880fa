// Loading: the saved fields of a frame's references are loaded into its projection, step by step or
// whole.
pub mod fields;
pub mod load;
pub mod step;
pub mod used;
