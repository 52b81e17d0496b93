// The sizes of the lent tables and of working arrays, in bytes. specs/Sizes has the same numbers for contracts, which are proved of the code with these.

// The most points, and as many standard monomials, values, counts and pivots; the most rows.
pub const POINTS: usize = 64;

pub const ROWS: usize = 449;

// 8 bytes for a point, a standard monomial and a leading monomial, 64 for a row of coefficients, one for a count.
pub const STATES: usize = 512;

pub const STANDARD: usize = 512;

pub const LEADS: usize = 3592;

pub const COEFFICIENTS: usize = 28736;

pub const COUNTS: usize = 64;

// A working row: 64 values and 64 coefficients. A pivot row stands with eight multiples of it in a block, and there are blocks for 64 pivots.
pub const WORK: usize = 128;

pub const BLOCK: usize = 1152;

pub const PIVOT_ROWS: usize = 73728;

// The 64 values of each variable; those of each standard monomial.
pub const COLUMNS: usize = 512;

pub const VALUES: usize = 4096;
