// A job's work, row by row.
pub mod row;
