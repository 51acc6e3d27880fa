// A job's record stepped where it stands, and a batch's jobs stepped by number.
pub mod step;
pub mod turn;
