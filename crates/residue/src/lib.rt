// Residues modulo one of the 18 primes of docs/SCOPE.md, and the lent bytes that hold them.
#![tactic(auto)]

pub mod arithmetic;
pub mod bytes;
pub mod inverse;
pub mod level;
pub mod sizes;
pub mod vector;
