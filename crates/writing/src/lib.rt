// Bytes, and numbers in decimal, written into a lent buffer.
#![tactic(auto)]

pub mod appending;
pub mod decimal;
pub mod tables;
