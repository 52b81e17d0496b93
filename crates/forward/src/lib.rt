// The call that runs a time course forward.
#![tactic(auto)]

pub mod running;
