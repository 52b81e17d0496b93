// Sums, products and powers of residues.
ghost use Rattle.std.specs.Prelude.{◌≡◌, ◌+◌, ◌-◌, ◌*◌, ◌/◌, ◌%◌, ◌^◌, ◌<◌, ◌≤◌};

// The sum of two residues before its reduction: the greatest number that stands in an addition's way.
fn sum(p: u8, x: u8, y: u8) -> u8
    requires p_bound { p ≤ 61 }
    requires x_lt_p { (x < p) × (y < p) }
    ensures { (result ≡ x + y) × (result < 122) }
{
    x + y
}

pub fn add(p: u8, x: u8, y: u8) -> u8
    requires p_bound { p ≤ 61 }
    requires x_lt_p { (x < p) × (y < p) }
    ensures { result ≡ (x + y) % p }
{
    let s = sum(p, x, y);
    if s < p { s } else { s - p }
}

// Twice a residue.
fn double(p: u8, x: u8) -> u8
    requires p_bound { p ≤ 61 }
    requires x_lt_p { x < p }
    ensures { result ≡ (2 * x) % p }
{
    add(p, x, x)
}

pub fn neg(p: u8, x: u8) -> u8
    requires p_bound { p ≤ 61 }
    requires x_lt_p { x < p }
    ensures { result ≡ (p - x) % p }
{
    if x == 0 { 0 } else { p - x }
}

// x where bit k of y is 1, else 0.
fn chosen(x: u8, y: u8, k: u8) -> u8
    requires { k < 8 }
    ensures { result ≡ y / 2 ^ k % 2 * x }
{
    if y >> k & 1 == 1 { x } else { 0 }
}

// The product with a number of so many bits, by doubling and adding from its highest bit on: no number in its way is greater than a sum of two residues.
pub fn product(p: u8, bits: u8, x: u8, y: u8) -> u8
    requires p_bound { (p ≤ 61) × (bits ≤ 8) }
    requires x_lt_p { (x < p) × (y < 2 ^ bits) }
    ensures { result ≡ (x * y) % p }
{
    let mut sum = 0;
    for k in (0..bits).rev() {
        sum = add(p, double(p, sum), chosen(x, y, k));
    }
    sum
}

pub fn mul(p: u8, x: u8, y: u8) -> u8
    requires p_bound { p ≤ 61 }
    requires x_lt_p { (x < p) × (y < p) }
    ensures { result ≡ (x * y) % p }
{
    product(p, 6, x, y)
}

// Any byte, reduced.
pub fn reduce(p: u8, x: u8) -> u8
    requires { (2 ≤ p) × (p ≤ 61) }
    ensures { result ≡ x % p }
{
    product(p, 8, 1, x)
}

// x to the power e by squares; anything to the power 0 is 1.
pub fn power(p: u8, x: u8, e: u8) -> u8
    requires le_p { (2 ≤ p) × (p ≤ 61) }
    requires x_lt_p { x < p }
    ensures { result ≡ (x ^ e) % p }
{
    let mut product = 1;
    let mut square = x;
    let mut left = e;
    while 0 < left {
        if left % 2 == 1 {
            product = mul(p, product, square);
        }
        square = mul(p, square, square);
        left /= 2;
    }
    product
}
