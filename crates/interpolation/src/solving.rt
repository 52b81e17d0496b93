// What elimination of the values at all points gives: the interpolant.
ghost use Rattle.std.specs.Prelude.{◌≡◌, map, ℕ, ◌+◌, ◌-◌, ◌*◌, ◌%◌, ◌<◌, ◌≤◌, length, get_or};
ghost use Rattle.residue.specs.Sizes.{most_points, states_size, work_size, block_size};
ghost use Rattle.residue.specs.Vector.{Below};
ghost use Rattle.elimination.specs.Elimination.{eliminated, Multiplied};
ghost use Rattle.residue.specs.Layout.{fill, over};
ghost use Rattle.monomial.specs.Terms.{term_values};
ghost use Rattle.specification.specs.Levels.{residues};
ghost use Rattle.interpolation.specs.Solving.{solution};

use crate::parity::put_values;
use elimination::reducing::eliminate;
use points::levels;
use residue::{arithmetic, bytes, sizes};

// Minus residues, as bytes.
fn put_negatives(p: u8, from: &[u8], to: &mut [u8])
    requires p_bound { p ≤ 61 }
    requires below { Below p from.now }
    requires from_in_bounds { length from.now ≤ length to.old }
    ensures { to.new ≡ over (map (λ x. (p - x) % p) from.now) to.old }
{
    for (i, x) in from.iter().enumerate() {
        to[i] = arithmetic::neg(p, *x);
    }
}

// Minus residues and zeros behind them, as 64 bytes.
fn put_answer(p: u8, from: &[u8], out: &mut [u8])
    requires p_bound { p ≤ 61 }
    requires below { Below p from.now }
    requires from_len_bound { (length from.now ≤ 64) × (length out.old ≡ most_points) }
    ensures { out.new ≡ fill 64 (map (λ x. (p - x) % p) from.now) }
{
    bytes::clear(out);
    put_negatives(p, from, out);
}

// The interpolant of the values at the front of a working row.
pub fn solve(p: u8, n: usize, rows: &[u8], pivots: &[u8], work: &mut [u8], out: &mut [u8])
    requires le_p { (2 ≤ p) × (p ≤ 61) }
    requires n_bound { (n ≤ 64) × (length work.old ≡ work_size) × (most_points ≤ length out.old) }
    requires n_in_bounds { (block_size * n ≤ length rows.now) × (n ≤ length pivots.now) }
    requires multiplied { (Multiplied p n rows.now) × (Below p work.old) }
    requires by_index { (t : ℕ) → t < n → get_or pivots.now t 0 < n }
    ensures work_after { work.new ≡ eliminated p rows.now pivots.now n work.old }
    ensures out_after { out.new ≡ over (fill 64 (solution p n rows.now pivots.now work.old)) out.old }
{
    eliminate(p, sizes::WORK, n, rows, pivots, work);
    put_answer(p, &work[n..n + n], &mut out[..sizes::POINTS]);
}

// The interpolant of the residues of levels, by the pivot rows of all n points.
pub fn solve_values(p: u8, n: usize, values: &[i8], rows: &[u8], pivots: &[u8], out: &mut [u8])
    requires le_p { (2 ≤ p) × (p ≤ 61) }
    requires n_bound { (n ≤ 64) × ((length values.now ≡ n) × (most_points ≤ length out.old)) }
    requires n_in_bounds { (block_size * n ≤ length rows.now) × (n ≤ length pivots.now) }
    requires multiplied { (Multiplied p n rows.now) × (Below p (residues p values.now)) }
    requires by_index { (t : ℕ) → t < n → get_or pivots.now t 0 < n }
    ensures { out.new ≡ over (fill 64 (solution p n rows.now pivots.now
        (fill work_size (residues p values.now))))
        out.old }
{
    let mut found = [0u8; sizes::POINTS];
    levels::put_residues(p, values, &mut found);
    let mut work = [0u8; sizes::WORK];
    bytes::copy(&found[..n], &mut work);
    solve(p, n, rows, pivots, &mut work, out);
}

// The interpolant of a polynomial's values at the n points of a table.
pub fn solve_terms(
    p: u8,
    coefficients: &[i8],
    exponents: &[u8],
    n: usize,
    points: &[u8],
    rows: &[u8],
    pivots: &[u8],
    out: &mut [u8],
)
    requires le_p { (2 ≤ p) × (p ≤ 61) }
    requires coefficients_len_bound { (length coefficients.now ≤ 256) × (length exponents.now ≡ 8 * length coefficients.now) }
    requires n_bound { (n ≤ 64) × ((length points.now ≡ states_size) × (most_points ≤ length out.old)) }
    requires n_in_bounds { (block_size * n ≤ length rows.now) × (n ≤ length pivots.now) }
    requires multiplied { (Multiplied p n rows.now) × ((Below p (residues p coefficients.now)) × (Below p points.now)) }
    requires by_index { (t : ℕ) → t < n → get_or pivots.now t 0 < n }
    ensures { out.new ≡ over
        (fill 64 (solution p n rows.now pivots.now
        (fill work_size (term_values p (residues p coefficients.now) exponents.now n points.now)))) out.old }
{
    let mut found = [0u8; 256];
    levels::put_residues(p, coefficients, &mut found);
    let count = coefficients.len();
    let mut work = [0u8; sizes::WORK];
    put_values(p, &found[..count], exponents, n, points, &mut work);
    solve(p, n, rows, pivots, &mut work, out);
}
