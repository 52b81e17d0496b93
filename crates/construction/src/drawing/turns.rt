// A turn of drawing up: the working row of the monomial in hand, its place among the leads or the standard monomials, and the next one's exponents and values.
ghost use Rattle.std.specs.Prelude.{◌≡◌, ℕ, ◌+◌, ◌*◌, ◌<◌, ◌≤◌, length, get_or, take, drop};
ghost use Rattle.residue.specs.Sizes.{most_rows, standard_size, leads_size, coefficients_size, work_size, columns_size, values_size};
ghost use Rattle.residue.specs.Vector.{Below};
ghost use Rattle.elimination.specs.Elimination.{eliminated, cancellations, Multiplied, ZeroBehind};
ghost use Rattle.residue.specs.Layout.{with_place};
ghost use Rattle.monomial.specs.Monomial.{times_variable};
ghost use Rattle.construction.specs.Drawing.{empty_row, row_with, RowsLong, product_values};

use elimination::reducing::eliminate;
use monomial::candidate::Candidate;
use monomial::exponents::rows;
use residue::bytes;
use residue::sizes::POINTS;
use residue::vector::multiply;

// The working row of given values after it met the pivot rows, and how many cancellations that took.
pub(crate) fn reduce(
    p: u8,
    n: usize,
    found: usize,
    own: &[u8; POINTS],
    rows: &[u8],
    pivots: &[u8],
    work: &mut [u8],
) -> usize
    requires le_p { ((2 ≤ p) × (p ≤ 61)) × ((n ≤ 64) × (found ≤ n)) }
    requires rows_long { RowsLong rows.now pivots.now }
    requires below { (Below p own.now) × (Multiplied p found rows.now) }
    requires by_index { (t : ℕ) → t < found → get_or pivots.now t 0 < n }
    requires zero_behind { ZeroBehind n found rows.now }
    requires work_value { work.old ≡ empty_row }
    ensures work_after { work.new ≡ eliminated p rows.now pivots.now found (row_with (take n own.now)) }
    ensures value { result ≡ cancellations p rows.now pivots.now found (row_with (take n own.now)) }
{
    bytes::copy(&own[..n], &mut work[..n]);
    eliminate(p, n, found, rows, pivots, work)
}

// Keeps the monomial as a lead, with its row of coefficients.
pub(crate) fn keep_lead(
    n: usize,
    found: usize,
    r: usize,
    exponents: &[u8; 8],
    work: &[u8],
    leads: &mut [u8],
    coefficients: &mut [u8],
)
    requires n_bound { (n ≤ 64) × ((found ≤ n) × (r < most_rows)) }
    requires leads_len { (length leads.old ≡ leads_size) × (length coefficients.old ≡ coefficients_size) }
    requires work_len { length work.now ≡ work_size }
    ensures leads_after { leads.new ≡ with_place 8 r exponents.now leads.old }
    ensures coefficients_after { coefficients.new ≡ with_place 64 r (take found (drop n work.now)) coefficients.old }
{
    let place = 8 * r;
    bytes::copy(exponents, &mut leads[place..place + 8]);
    let from = 64 * r;
    let end = n + found;
    bytes::copy(&work[n..end], &mut coefficients[from..from + 64]);
}

// Keeps the monomial as a standard one, with its values.
pub(crate) fn keep_standard(
    found: usize,
    exponents: &[u8; 8],
    own: &[u8; POINTS],
    standard: &mut [u8],
    values: &mut [u8],
)
    requires found_bound { found < 64 }
    requires standard_len { (length standard.old ≡ standard_size) × (length values.old ≡ values_size) }
    ensures standard_after { standard.new ≡ with_place 8 found exponents.now standard.old }
    ensures values_after { values.new ≡ with_place 64 found own.now values.old }
{
    let place = 8 * found;
    bytes::copy(exponents, &mut standard[place..place + 8]);
    let from = 64 * found;
    bytes::copy(own, &mut values[from..from + 64]);
}

// The exponents of a product: those of its standard monomial, and one more of its variable.
pub(crate) fn exponents_of(product: &Candidate, standard: &[u8]) -> [u8; 8]
    requires product_bound { (product.now.variable < 8) × ((product.now.standard < 64) × (length standard.now ≡ standard_size)) }
    requires exponent_bound { get_or standard.now (8 * product.now.standard + product.now.variable) 0 < 255 }
    ensures { result ≡ times_variable product.now.variable (take 8 (drop (8 * product.now.standard) standard.now)) }
{
    let mut exponents = rows(POINTS, standard)[product.standard];
    exponents[product.variable] += 1;
    exponents
}

// Its values: those of its standard monomial, times its variable's.
pub(crate) fn put_values(
    p: u8,
    n: usize,
    product: &Candidate,
    columns: &[u8],
    values: &[u8],
    own: &mut [u8; POINTS],
)
    requires le_p { ((2 ≤ p) × (p ≤ 61)) × ((n ≤ 64) × ((product.now.variable < 8) × (product.now.standard < 64))) }
    requires columns_len { (length columns.now ≡ columns_size) × (length values.now ≡ values_size) }
    requires below { (Below p (take n (drop (64 * product.now.variable) columns.now))) × (Below p values.now) }
    ensures { own.new
        ≡ product_values p n (take n (drop (64 * product.now.variable) columns.now)) (take 64 (drop (64 * product.now.standard) values.now)) }
{
    let from = 64 * product.standard;
    bytes::copy(&values[from..from + 64], own);
    let column = 64 * product.variable;
    multiply(p, &mut own[..n], &columns[column..column + n]);
}
