// The calls that C links. Each takes numbers and byte slices, hands them on, and answers one number.
#![tactic(auto)]

pub mod answers;
pub mod archive;
mod packing;
pub mod tables;
pub mod text;
pub mod version;
