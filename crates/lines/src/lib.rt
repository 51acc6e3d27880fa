// What programs share: lines of words and decimal numbers, and reading to the end of the input.
#![tactic(auto)]

pub mod print;
pub mod read;
