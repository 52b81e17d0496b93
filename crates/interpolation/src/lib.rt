// What is solved over the points of a basis: interpolants, and the pairs of points of the wiring list.
#![tactic(auto)]

pub mod pairs;
pub mod parity;
pub mod solving;
