// Saving: the area that a save or a load works on, and a frame's blocks saved to its motion field.
pub mod area;
pub mod choose;
pub mod save;
pub mod walk;
