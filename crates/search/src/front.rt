// What is asked of a search, what it refuses before it reads, and the context that it answers.
pub mod ask;
pub mod context;
