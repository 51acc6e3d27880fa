// The library for C: each of jaskkovir's functions exported under its name, with its clauses. Numbers
// pass as themselves, a lent part as a pointer and a length (include/jaskkovir.h).
#![tactic(auto)]

pub mod batches;
pub mod captures;
pub mod frames;
pub mod leaves;
pub mod motions;
pub mod searches;
pub mod tiles;
