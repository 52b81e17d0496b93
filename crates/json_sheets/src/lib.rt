// Sheets as canonical JSON: the two calls that write and read them.
#![tactic(auto)]

mod judging;
pub mod read;
pub mod write;
