// What every call is handed.

// The modulus p, the number m of variables, the number of the monomial order, and the weights of order 3, x1's first, of any content.
#[derive(Clone, Copy)]
pub struct Settings {
    pub modulus: u64,
    pub variables: u64,
    pub order: u64,
    pub weights: [u8; 8],
}
