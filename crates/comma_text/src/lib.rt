// Comma-separated text: the reader.
#![tactic(auto)]

pub mod reading;
