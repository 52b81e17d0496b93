// Monomials: total degree and divisibility, the orders, ranks, values modulo p, the next monomial, and tables of them. A monomial is 8 exponents, x1's first.
#![tactic(auto)]

pub mod candidate;
pub mod columns;
pub mod exponents;
pub mod insert;
pub mod order;
pub mod rank;
pub mod terms;
pub mod value;
