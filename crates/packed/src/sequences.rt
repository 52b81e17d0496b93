// The monomials without squares in increasing order, for each order: constant tables, of which one computed test each shows what the walk asks of them.
pub mod grevlex;
pub mod grlex;
pub mod lex;

// The variables from the one with the largest square down, which in these orders is x1.
pub const SQUARES: [u8; 8] = [0, 1, 2, 3, 4, 5, 6, 7];
