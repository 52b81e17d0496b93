// The calls that draw lent tables up: the reduced Gröbner basis, with its standard monomials, of the ideal of all polynomials that vanish at a list of points,
// offered all at once, left by a withdrawal or without one of their variables.
#![tactic(auto)]

pub mod drawing;
pub mod leaving;
pub mod withdrawing;
