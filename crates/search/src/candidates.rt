// A search whose candidate stack is lent as eight records.
pub mod find;
pub mod owned;
pub mod plan;
