// The text of a file of cases: numbers and blocks, read and printed.
#![tactic(auto)]

pub mod blocks;
pub mod out;
pub mod reading;
