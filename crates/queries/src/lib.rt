// The calls that read lent tables: checking them, and what is answered from them: interpolants, wiring lists and remainders.
#![tactic(auto)]

pub mod checking;
pub mod remainders;
pub mod values;
