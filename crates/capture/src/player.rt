// Plays a capture: its jobs on the frame that it describes, over two blank buffers.
pub mod blank;
pub mod open;
pub mod play;
