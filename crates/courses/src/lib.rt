// Time courses, as records that have been read: their moves, and how a run ends.
#![tactic(auto)]

pub mod moves;
pub mod returns;
