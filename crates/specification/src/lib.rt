// The definitions of the calls, and the theory over them. The code is what the definitions are over: settings, lent tables, answers and refusals.
#![tactic(auto)]

pub mod answers;
pub mod refusals;
pub mod settings;
pub mod tables;
