// The neighbours of a block: read out of the records, and matched with what a search wants.
pub mod read;
pub mod records;
pub mod want;
