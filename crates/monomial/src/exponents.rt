// Monomials in a table, total degree, weight and divisibility.
ghost use Rattle.std.specs.Prelude.{◌≡◌, ◌*◌, ◌≤◌, length};
ghost use Rattle.residue.specs.Layout.{groups};
ghost use Rattle.monomial.specs.Monomial.{degree, divides};
ghost use Rattle.monomial.specs.Order.{weigh};

// The first k rows of 8 bytes in a table.
pub fn rows(k: usize, table: &[u8]) -> &[[u8; 8]]
    requires { 8 * k ≤ length table.now }
    ensures value { result.now ≡ groups 8 k table.now }
    ensures len { length result.now ≡ k }
{
    let (rows, _) = table[..8 * k].as_chunks::<8>();
    rows
}

// The total degree.
pub(crate) fn degree(a: &[u8; 8]) -> u64
    ensures { result ≡ degree a.now }
{
    let mut sum: u64 = 0;
    for x in a {
        sum += *x as u64;
    }
    sum
}

// The sum of weight times exponent.
pub fn weigh(weights: &[u8; 8], a: &[u8; 8]) -> u64
    ensures { result ≡ weigh weights.now a.now }
{
    let mut sum: u64 = 0;
    for (w, x) in weights.iter().zip(a) {
        sum += *w as u64 * *x as u64;
    }
    sum
}

// Whether a divides b.
pub(crate) fn divides(a: &[u8; 8], b: &[u8; 8]) -> bool
    ensures { result ≡ divides a.now b.now }
{
    a.iter().zip(b).all(|(x, y)| x <= y)
}
