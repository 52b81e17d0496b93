// Drawing up modulo 2 with words.
#![tactic(auto)]

pub mod call;
pub mod drawing;
pub mod sequences;
