// The candidate search, the Rust's `rav1d_refmvs_find`: what is asked, its parts in order, the extra
// search, and the answer in lent bytes or in lent records.
#![tactic(auto)]

pub mod candidates;
pub mod extend;
pub mod extra;
pub mod find;
pub mod front;
pub mod lent_bytes;
pub mod parts;
pub mod source;
