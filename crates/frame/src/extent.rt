// The sizes of a frame: what follows from its width and height, its tile rows and threads.
pub mod sizes;
