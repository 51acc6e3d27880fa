// A job: a load or a save as a record with a count of steps, what of it is refused before its work,
// and whether two of them meet.
pub mod front;
pub mod job_bytes;
pub mod record;
pub mod share;
