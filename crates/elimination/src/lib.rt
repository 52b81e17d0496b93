// Elimination over working rows of residues.
#![tactic(auto)]

pub mod reducing;
pub mod rows;
