// The text of a time course: its form and its records.
#![tactic(auto)]

pub mod reading;
