// Jobs: loads and saves as records, a batch of them admitted together, and one step of a job.
#![tactic(auto)]

pub mod admit;
pub mod inputs;
pub mod job;
pub mod step;
pub mod work;
