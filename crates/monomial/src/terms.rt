// The values of a polynomial's terms at points: term after term a coefficient and 8 exponents.
ghost use Rattle.std.specs.Prelude.{◌≡◌, map, ◌*◌, ◌%◌, ◌<◌, ◌≤◌, length, replicate};
ghost use Rattle.residue.specs.Sizes.{states_size, work_size};
ghost use Rattle.residue.specs.Vector.{Below, add_scaled, powered};
ghost use Rattle.residue.specs.Layout.{groups, over};
ghost use Rattle.monomial.specs.Monomial.{monomial_at};
ghost use Rattle.monomial.specs.Columns.{column_of};
ghost use Rattle.monomial.specs.Terms.{term_values};

use crate::columns::put_column;
use crate::exponents::rows;
use residue::sizes;
use residue::vector::{add_scaled, multiply_powers};

// Multiplies values at n points by those of a power of x_(k+1) there.
fn multiply_variable(p: u8, n: usize, k: usize, e: u8, points: &[u8], values: &mut [u8])
    requires le_p { ((2 ≤ p) × (p ≤ 61)) × ((n ≤ 64) × (k < 8)) }
    requires points_len { (length points.now ≡ states_size) × Below p points.now }
    requires values_len { (length values.old ≡ n) × Below p values.old }
    ensures { values.new ≡ powered p e values.old (column_of k n points.now) }
{
    if e == 0 {
        return;
    }
    let mut column = [0u8; sizes::POINTS];
    put_column(n, k, points, &mut column);
    multiply_powers(p, values, &mut column[..n], e);
}

// Multiplies ones at n points by the values of a monomial there. Exponents stay as they are: modulo p - 1 they would be wrong at 0.
fn multiply_monomial(p: u8, n: usize, a: &[u8; 8], points: &[u8], values: &mut [u8])
    requires le_p { ((2 ≤ p) × (p ≤ 61)) × (n ≤ 64) }
    requires points_len { (length points.now ≡ states_size) × Below p points.now }
    requires values_value { values.old ≡ replicate n 1 }
    ensures { values.new ≡ map (λ P. monomial_at P a.now % p) (groups 8 n points.now) }
{
    for (k, e) in a.iter().enumerate() {
        multiply_variable(p, n, k, *e, points, values);
    }
}

// Adds the values of a term at n points.
fn add_term(p: u8, n: usize, c: u8, a: &[u8; 8], points: &[u8], values: &mut [u8])
    requires le_p { ((2 ≤ p) × (p ≤ 61)) × ((n ≤ 64) × (c < p)) }
    requires points_len { (length points.now ≡ states_size) × Below p points.now }
    requires values_len { (length values.old ≡ n) × Below p values.old }
    ensures { values.new
        ≡ add_scaled p c values.old (map (λ P. monomial_at P a.now % p) (groups 8 n points.now)) }
{
    let mut term = [1u8; sizes::POINTS];
    multiply_monomial(p, n, a, points, &mut term[..n]);
    add_scaled(p, values, c, &term[..n]);
}

// The values at the first n points of a table, at the front of a working row of zeros.
pub fn put_term_values(
    p: u8,
    coefficients: &[u8],
    exponents: &[u8],
    n: usize,
    points: &[u8],
    work: &mut [u8],
)
    requires le_p { (2 ≤ p) × (p ≤ 61) }
    requires below { Below p coefficients.now }
    requires exponents_len { length exponents.now ≡ 8 * length coefficients.now }
    requires n_bound { (n ≤ 64) × ((length points.now ≡ states_size) × Below p points.now) }
    requires work_value { work.old ≡ replicate work_size 0 }
    ensures { work.new
        ≡ over (term_values p coefficients.now exponents.now n points.now) work.old }
{
    let monomials = rows(coefficients.len(), exponents);
    for (c, a) in coefficients.iter().zip(monomials) {
        add_term(p, n, *c, a, points, &mut work[..n]);
    }
}
