// Values of monomials at a point, modulo p.
ghost use Rattle.std.specs.Prelude.{◌≡◌, map, ◌*◌, ◌%◌, ◌≤◌, length};
ghost use Rattle.residue.specs.Vector.{Below};
ghost use Rattle.residue.specs.Layout.{groups, over};
ghost use Rattle.monomial.specs.Monomial.{monomial_at};

use crate::exponents::rows;
use residue::arithmetic::{mul, power};

// The product of the coordinates' powers. Exponents stay as they are: modulo p - 1 they would be wrong at 0.
pub fn value(p: u8, point: &[u8], a: &[u8; 8]) -> u8
    requires le_p { (2 ≤ p) × (p ≤ 61) }
    requires point_len { length point.now ≡ 8 }
    requires below { Below p point.now }
    ensures { result ≡ monomial_at point.now a.now % p }
{
    let mut product = 1;
    for (x, e) in point.iter().zip(a) {
        product = mul(p, product, power(p, *x, *e));
    }
    product
}

// The values of k monomials at a point.
pub fn values_at(p: u8, k: usize, monomials: &[u8], point: &[u8], values: &mut [u8])
    requires le_p { (2 ≤ p) × (p ≤ 61) }
    requires k_in_bounds { (8 * k ≤ length monomials.now) × (k ≤ length values.old) }
    requires point_len { (length point.now ≡ 8) × Below p point.now }
    ensures { values.new
        ≡ over (map (λ a. monomial_at point.now a % p) (groups 8 k monomials.now)) values.old }
{
    for (i, a) in rows(k, monomials).iter().enumerate() {
        values[i] = value(p, point, a);
    }
}
