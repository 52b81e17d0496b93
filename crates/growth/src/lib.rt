// The basis of points with one more, from the basis of the points (Farr and Gao).
#![tactic(auto)]

mod addition;
mod correcting;
pub mod growing;
mod products;
