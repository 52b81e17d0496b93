// Polynomials and points modulo 2 in words: a column of values is one word, a monomial without squares one byte, a set of such monomials four words.
#![tactic(auto)]

pub mod columns;
pub mod keeping;
pub mod open;
pub mod pivots;
pub mod squares;
pub mod writing;
