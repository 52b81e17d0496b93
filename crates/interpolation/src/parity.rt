// The values of a polynomial's terms modulo 2. A value is 0 or 1, so an exponent of 1 or more counts as 1: a monomial is the byte of its variables.
// The polynomial is a set of bytes in four words, a point's mask the bytes that divide it, and the value there the parity of what the mask leaves.
ghost use Rattle.std.specs.Prelude.{◌≡◌, ◌*◌, ◌%◌, ◌<◌, ◌≤◌, length, replicate};
ghost use Rattle.residue.specs.Sizes.{states_size, work_size};
ghost use Rattle.residue.specs.Vector.{Below};
ghost use Rattle.residue.specs.Layout.{over};
ghost use Rattle.monomial.specs.Terms.{term_values};
ghost use Rattle.residue.specs.Words.{word_of};
ghost use Rattle.interpolation.specs.Parity.{occurring, byte_of, toggled, ones_left, SetOf, values_at, mask_of};

use monomial::terms::put_term_values;

// 1 for an exponent of 1 or more.
fn occurs(e: u8) -> usize
    ensures { result ≡ occurring e }
{
    usize::from(e != 0)
}

// The byte of a monomial, from its last variable to its first.
fn byte_of(a: &[u8]) -> usize
    requires { length a.now ≡ 8 }
    ensures { result ≡ byte_of a.now }
{
    let mut byte: usize = 0;
    for e in a.iter().rev() {
        byte = byte * 2 + occurs(*e);
    }
    byte
}

// Adds c modulo 2 to the bit of a byte.
fn toggle(c: u8, byte: usize, polynomial: &mut [u64])
    requires { (c < 2) × (byte < 256) × (length polynomial.old ≡ 4) }
    ensures { polynomial.new ≡ toggled c byte polynomial.old }
{
    let w = byte / 64;
    polynomial[w] ^= u64::from(c) << byte % 64;
}

// The set of a polynomial, in four words of zeros.
fn put_terms(coefficients: &[u8], exponents: &[u8], polynomial: &mut [u64])
    requires below { Below 2 coefficients.now }
    requires exponents_len { length exponents.now ≡ 8 * length coefficients.now }
    requires polynomial_value { polynomial.old ≡ replicate 4 0 }
    ensures { SetOf coefficients.now exponents.now polynomial.new }
{
    for (c, monomial) in coefficients.iter().zip(exponents.chunks_exact(8)) {
        toggle(*c, byte_of(monomial), polynomial);
    }
}

// The first word of a point's mask: one variable more repeats the mask so far above itself where the variable is 1.
fn low_mask(point: &[u8]) -> u64
    requires { (length point.now ≡ 8) × Below 2 point.now }
    ensures { result ≡ word_of (values_at 6 point.now) }
{
    let mut mask = 1u64;
    for (k, x) in point[..6].iter().enumerate() {
        if *x != 0 {
            mask |= mask << (1usize << k);
        }
    }
    mask
}

// A word where a variable is 1.
fn kept(x: u8, word: u64) -> u64
    requires { x < 2 }
    ensures { result ≡ x * word }
{
    u64::from(x) * word
}

// The mask of a point. Its last two variables choose among the words.
fn put_mask(point: &[u8], mask: &mut [u64])
    requires { (length point.now ≡ 8) × (Below 2 point.now) × (length mask.old ≡ 4) }
    ensures { mask.new ≡ mask_of point.now }
{
    let low = low_mask(point);
    let next = kept(point[6], low);
    mask[0] = low;
    mask[1] = next;
    mask[2] = kept(point[7], low);
    mask[3] = kept(point[7], next);
}

// The parity of what a mask leaves.
fn parity(polynomial: &[u64], mask: &[u64]) -> u8
    requires { (length polynomial.now ≡ 4) × (length mask.now ≡ 4) }
    ensures { result ≡ ones_left polynomial.now mask.now % 2 }
{
    let left = polynomial
        .iter()
        .zip(mask)
        .fold(0u64, |left, (w, v)| left ^ w & v);
    (left.count_ones() % 2) as u8
}

// The value at a point.
fn value_at(polynomial: &[u64], point: &[u8]) -> u8
    requires { (length polynomial.now ≡ 4) × (length point.now ≡ 8) × Below 2 point.now }
    ensures { result ≡ ones_left polynomial.now (mask_of point.now) % 2 }
{
    let mut mask = [0u64; 4];
    put_mask(point, &mut mask);
    parity(polynomial, &mask)
}

// The values at the first n points of a table, at the front of a working row of zeros.
fn put_parities(coefficients: &[u8], exponents: &[u8], n: usize, points: &[u8], work: &mut [u8])
    requires below { Below 2 coefficients.now }
    requires exponents_len { length exponents.now ≡ 8 * length coefficients.now }
    requires n_bound { (n ≤ 64) × ((length points.now ≡ states_size) × Below 2 points.now) }
    requires work_value { work.old ≡ replicate work_size 0 }
    ensures { work.new
        ≡ over (term_values 2 coefficients.now exponents.now n points.now) work.old }
{
    let mut polynomial = [0u64; 4];
    put_terms(coefficients, exponents, &mut polynomial);
    for (i, point) in points[..8 * n].chunks_exact(8).enumerate() {
        work[i] = value_at(&polynomial, point);
    }
}

// The values modulo any p: by parity where p is 2.
pub fn put_values(
    p: u8,
    coefficients: &[u8],
    exponents: &[u8],
    n: usize,
    points: &[u8],
    work: &mut [u8],
)
    requires le_p { (2 ≤ p) × (p ≤ 61) }
    requires below { Below p coefficients.now }
    requires exponents_len { length exponents.now ≡ 8 * length coefficients.now }
    requires n_bound { (n ≤ 64) × ((length points.now ≡ states_size) × Below p points.now) }
    requires work_value { work.old ≡ replicate work_size 0 }
    ensures { work.new
        ≡ over (term_values p coefficients.now exponents.now n points.now) work.old }
{
    if p == 2 {
        put_parities(coefficients, exponents, n, points, work);
    } else {
        put_term_values(p, coefficients, exponents, n, points, work);
    }
}
