// The call that adds a point to lent tables.
#![tactic(auto)]

pub mod adding;
