// Drawing up the basis of all points (Buchberger and Möller).
#![tactic(auto)]

pub mod drawing;
