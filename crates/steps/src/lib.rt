// The model of a time course, its steps and its run.
#![tactic(auto)]

pub mod model;
pub mod run;
pub mod stepping;
