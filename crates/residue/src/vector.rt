// Vectors of residues, the inner loops of the whole: flat, so that they are compiled to packed instructions.
ghost use Rattle.std.specs.Prelude.{◌≡◌, ℕ, ◌%◌, ◌^◌, ◌<◌, ◌≤◌, length, get_or};
ghost use Rattle.residue.specs.Vector.{Below, add_scaled, scaled, pointwise, powered, squares_left, dot_of};

use crate::arithmetic::{add, mul, product};
use crate::bytes::copy;

// Puts f of an entry in the place of each.
fn each<F: Fn(u8) -> u8>(dst: &mut [u8], f: F)
    requires { (i : ℕ) → i < length dst.old → F.pre f (get_or dst.old i 0) }
    ensures { (i : ℕ) → i < length dst.old → F.post f (get_or dst.old i 0) (get_or dst.new i 0) }
{
    for x in dst.iter_mut() {
        *x = f(*x);
    }
}

// Puts f of an entry and of the one at its place in src in the place of each.
pub fn each_with<F: Fn(u8, u8) -> u8>(dst: &mut [u8], src: &[u8], f: F)
    requires dst_len { length dst.old ≡ length src.now }
    requires callable { (i : ℕ) → i < length dst.old → F.pre f (get_or dst.old i 0) (get_or src.now i 0) }
    ensures { (i : ℕ) → i < length dst.old → F.post f (get_or dst.old i 0) (get_or src.now i 0) (get_or dst.new i 0) }
{
    for (i, y) in src.iter().enumerate() {
        dst[i] = f(dst[i], *y);
    }
}

// Adds c times src to dst.
pub fn add_scaled(p: u8, dst: &mut [u8], c: u8, src: &[u8])
    requires le_p { (2 ≤ p) × (p ≤ 61) }
    requires dst_len { length dst.old ≡ length src.now }
    requires below { Below p dst.old }
    requires c_lt_p { c < p }
    requires below_2 { Below p src.now }
    ensures { dst.new ≡ add_scaled p c dst.old src.now }
{
    each_with(dst, src, |x, y| add(p, x, mul(p, c, y)));
}

// Multiplies each entry of dst by c.
pub fn scale(p: u8, dst: &mut [u8], c: u8)
    requires le_p { (2 ≤ p) × (p ≤ 61) }
    requires below { Below p dst.old }
    requires c_lt_p { c < p }
    ensures { dst.new ≡ scaled p c dst.old }
{
    each(dst, |x| mul(p, c, x));
}

// Multiplies each entry of dst by that of src. Residues modulo 7 and less have three bits, which are doubled in half the time.
pub fn multiply(p: u8, dst: &mut [u8], src: &[u8])
    requires le_p { (2 ≤ p) × (p ≤ 61) }
    requires dst_len { length dst.old ≡ length src.now }
    requires below { Below p dst.old }
    requires below_2 { Below p src.now }
    ensures { dst.new ≡ pointwise p dst.old src.now }
{
    if p <= 7 {
        each_with(dst, src, |x, y| product(p, 3, x, y));
    } else {
        each_with(dst, src, |x, y| mul(p, x, y));
    }
}

// Multiplies each entry of dst by itself.
fn square(p: u8, dst: &mut [u8])
    requires le_p { (2 ≤ p) × (p ≤ 61) }
    requires below { Below p dst.old }
    ensures { dst.new ≡ pointwise p dst.old dst.old }
{
    each(dst, |x| mul(p, x, x));
}

// Multiplies each entry of dst by that of base to the power e, by squares, the last of which is left in base.
pub fn multiply_powers(p: u8, dst: &mut [u8], base: &mut [u8], e: u8)
    requires le_p { (2 ≤ p) × (p ≤ 61) }
    requires dst_len { length dst.old ≡ length base.old }
    requires below { Below p dst.old × Below p base.old }
    ensures dst_after { dst.new ≡ powered p e dst.old base.old }
    ensures base_after { base.new ≡ squares_left p e base.old }
{
    let mut left = e;
    while 0 < left {
        if left % 2 == 1 {
            multiply(p, dst, base);
        }
        square(p, base);
        left /= 2;
    }
}

// The sum of the products, which are made first, packed.
pub fn dot(p: u8, a: &[u8], b: &[u8]) -> u8
    requires le_p { (2 ≤ p) × (p ≤ 61) }
    requires a_len { length a.now ≡ length b.now }
    requires a_len_bound { length a.now ≤ 256 }
    requires below { Below p a.now }
    requires below_2 { Below p b.now }
    ensures { result ≡ dot_of a.now b.now % p }
{
    let n = a.len();
    let mut products = [0u8; 256];
    copy(a, &mut products);
    multiply(p, &mut products[..n], b);
    let mut total = 0;
    for x in &products[..n] {
        total = add(p, total, *x);
    }
    total
}
