// A step of the model: the values of the standard monomials at a state, and of each gene's interpolant.
ghost use Rattle.std.specs.Prelude.{◌≡◌, map, ℕ, ◌+◌, ◌*◌, ◌%◌, ◌<◌, ◌≤◌, length, get_or, take, replicate};
ghost use Rattle.residue.specs.Vector.{Below, pointwise, dot_of};
ghost use Rattle.residue.specs.Layout.{fill, groups, in_places, over};
ghost use Rattle.steps.specs.Stepping.{powers_of, factors_of, values_at, step_of};

use residue::bytes::copy;
use residue::vector::{dot, multiply};

// The bytes of a table of powers, for every exponent that a byte can be.
const POWERS: usize = 2048;

// The powers of a state's coordinates, 8 an exponent, for exponents below a number. They are made 16 at a time, which one packed multiplication does.
fn put_powers(p: u8, exponents: usize, state: &[u8], powers: &mut [u8])
    requires le_p { (2 ≤ p) × (p ≤ 61) × (exponents ≤ 256) }
    requires state_len { (length state.now ≡ 8) × Below p state.now × (powers.old ≡ replicate 2048 0) }
    ensures { powers.new ≡ fill 2048 (in_places 8 (powers_of p state.now exponents)) }
{
    let mut base = [0u8; 16];
    copy(state, &mut base);
    let mut power = [1u8; 16];
    for e in 0..exponents {
        let from = 8 * e;
        copy(&power[..8], &mut powers[from..from + 8]);
        multiply(p, &mut power, &base);
    }
}

// The powers of one coordinate that n monomials have.
fn put_factors(k: usize, n: usize, standard: &[u8], powers: &[u8], factors: &mut [u8])
    requires { (k < 8) × (8 * n ≤ length standard.now) × (length powers.now ≡ 2048) × (n ≤ length factors.old) × (n ≤ 64) }
    ensures { factors.new ≡ over (factors_of k n standard.now powers.now) factors.old }
{
    for (j, monomial) in standard[..8 * n].chunks_exact(8).enumerate() {
        factors[j] = powers[8 * usize::from(monomial[k]) + k];
    }
}

// Multiplies the values of monomials by their powers of one coordinate.
fn multiply_variable(p: u8, k: usize, standard: &[u8], powers: &[u8], values: &mut [u8])
    requires le_p { (2 ≤ p) × (p ≤ 61) × (k < 8) × (length powers.now ≡ 2048) }
    requires values_in_bounds { (8 * length values.old ≤ length standard.now) × (length values.old ≤ 64) }
    requires below { Below p powers.now × Below p values.old }
    ensures { values.new
        ≡ pointwise p values.old (factors_of k (length values.old) standard.now powers.now) }
{
    let n = values.len();
    let mut factors = [0u8; 64];
    put_factors(k, n, standard, powers, &mut factors);
    multiply(p, values, &factors[..n]);
}

// The values of monomials at a state: ones, multiplied by the powers of each coordinate.
fn put_values(p: u8, m: usize, exponents: usize, standard: &[u8], state: &[u8], values: &mut [u8])
    requires le_p { (2 ≤ p) × (p ≤ 61) × (m ≤ 8) × (exponents ≤ 256) }
    requires values_in_bounds { (8 * length values.old ≤ length standard.now) × (length values.old ≤ 64) }
    requires by_index { (i : ℕ) → i < 8 * length values.old → get_or standard.now i 0 < exponents }
    requires state_len { (length state.now ≡ 8) × Below p state.now }
    requires values_value { values.old ≡ replicate (length values.old) 1 }
    ensures { values.new ≡ values_at p m (length values.old) standard.now state.now }
{
    let mut powers = [0u8; POWERS];
    put_powers(p, exponents, state, &mut powers);
    for k in 0..m {
        multiply_variable(p, k, standard, &powers, values);
    }
}

// The values of m interpolants, from those of the standard monomials.
fn put_sums(p: u8, m: usize, genes: &[u8], values: &[u8], next: &mut [u8])
    requires le_p { (2 ≤ p) × (p ≤ 61) × (m ≤ 8) }
    requires values_len_bound { (length values.now ≤ 64) × Below p values.now }
    requires in_bounds { (512 ≤ length genes.now) × Below p genes.now }
    requires next_value { next.old ≡ replicate 8 0 }
    ensures { next.new
        ≡ fill 8 (map (λ cs. dot_of (take (length values.now) cs) values.now % p) (groups 64 m genes.now)) }
{
    let n = values.len();
    for g in 0..m {
        let from = 64 * g;
        next[g] = dot(p, &genes[from..from + n], values);
    }
}

// The next state: each gene's interpolant at this one. All exponents of the n standard monomials are below a number.
pub(crate) fn step(
    p: u8,
    m: usize,
    n: usize,
    exponents: usize,
    standard: &[u8],
    genes: &[u8],
    state: &[u8],
    next: &mut [u8],
)
    requires le_p { (2 ≤ p) × (p ≤ 61) × (m ≤ 8) × (n ≤ 64) × (exponents ≤ 256) }
    requires n_in_bounds { (8 * n ≤ length standard.now) × ((i : ℕ) → i < 8 * n → get_or standard.now i 0 < exponents) }
    requires in_bounds { (512 ≤ length genes.now) × Below p genes.now }
    requires state_len { (length state.now ≡ 8) × Below p state.now }
    requires next_value { next.old ≡ replicate 8 0 }
    ensures { next.new ≡ step_of p m n standard.now genes.now state.now }
{
    let mut values = [1u8; 64];
    put_values(p, m, exponents, standard, state, &mut values[..n]);
    put_sums(p, m, genes, &values[..n], next);
}
