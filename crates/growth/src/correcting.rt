// Rows of the basis when a point is added: their values there, the first that is not 0, and the others corrected by it.
ghost use Rattle.std.specs.Prelude.{◌≡◌, ◌*◌, ◌<◌, ◌≤◌, length};
ghost use Rattle.std.specs.Option.{IfSome, unwrap_or};
ghost use Rattle.residue.specs.Sizes.{most_points};
ghost use Rattle.residue.specs.Vector.{Below, add_scaled};
ghost use Rattle.residue.specs.Layout.{in_places, over};
ghost use Rattle.growth.specs.Growing.{row_value_at, value_of_row, first_from, factor_of, corrected_by, corrected_row, corrected_rows};

use crate::addition::Addition;
use monomial::exponents::rows;
use monomial::value::value;
use residue::{arithmetic, bytes, sizes, vector};

// The value of a row at a point where the standard monomials have these values.
pub(crate) fn row_value(
    p: u8,
    point: &[u8],
    values: &[u8],
    lead: &[u8; 8],
    coefficients: &[u8],
) -> u8
    requires le_p { (2 ≤ p) × (p ≤ 61) }
    requires point_len { length point.now ≡ 8 }
    requires coefficients_len { (length coefficients.now ≡ length values.now) × (length coefficients.now ≤ 256) }
    requires below { Below p point.now }
    requires below_2 { Below p values.now × Below p coefficients.now }
    ensures { result ≡ row_value_at p point.now values.now lead.now coefficients.now }
{
    arithmetic::add(
        p,
        value(p, point, lead),
        vector::dot(p, coefficients, values),
    )
}

// The first of r rows, in increasing order, whose value at the point is not 0; none where each is 0.
// Document 01 names this form: a labelled search over rows and their terms, left from inside by break with the row index.
pub(crate) fn first_row(
    p: u8,
    n: usize,
    r: usize,
    point: &[u8],
    values: &[u8],
    leads: &[u8],
    coefficients: &[u8],
) -> Option<usize>
    requires le_p { (2 ≤ p) × (p ≤ 61) × (n ≤ 64) }
    requires point_len { (length point.now ≡ 8) × (n ≤ length values.now) }
    requires r_in_bounds { (8 * r ≤ length leads.now) × (64 * r ≤ length coefficients.now) }
    requires below { Below p point.now }
    requires below_2 { Below p values.now × Below p coefficients.now }
    ensures within { IfSome result (λ i. i < r) }
    ensures place { unwrap_or result r ≡ first_from (value_of_row p n point.now values.now leads.now coefficients.now) 0 r }
{
    let monomials = rows(r, leads);
    let mut i = 0;
    'rows: loop {
        if i == r {
            break None;
        }
        let first = 64 * i;
        let mut sum = value(p, point, &monomials[i]);
        let mut j = 0;
        'terms: loop {
            if j == n {
                if sum != 0 {
                    break 'rows Some(i);
                }
                break 'terms;
            }
            let term = arithmetic::mul(p, coefficients[first + j], values[j]);
            sum = arithmetic::add(p, sum, term);
            j += 1;
        }
        i += 1;
    }
}

// A row of coefficients plus factor times the lost row, with the factor put into the column of its lead.
fn put_corrected(
    p: u8,
    place: usize,
    factor: u8,
    gone: &[u8],
    coefficients: &mut [u8],
    row: &mut [u8],
)
    requires le_p { (2 ≤ p) × (p ≤ 61) }
    requires place_bound { (place < 64) × (factor < p) }
    requires gone_len { (length gone.now ≡ most_points) × (length coefficients.old ≡ most_points) × (length row.old ≡ most_points) }
    requires below { Below p gone.now }
    requires below_2 { Below p coefficients.old }
    ensures coefficients_after { coefficients.new ≡ add_scaled p factor coefficients.old gone.now }
    ensures row_after { row.new ≡ corrected_by p place factor gone.now coefficients.old }
{
    vector::add_scaled(p, coefficients, factor, gone);
    bytes::copy(&coefficients[..place], row);
    row[place] = factor;
    let next = place + 1;
    bytes::copy(&coefficients[place..63], &mut row[next..]);
}

// A row corrected, from its lead and its coefficients.
pub(crate) fn correct(addition: &Addition, lead: &[u8; 8], coefficients: &mut [u8], row: &mut [u8])
    requires coefficients_len { (length coefficients.old ≡ most_points) × (length row.old ≡ most_points) }
    requires below { Below addition.now.p coefficients.old }
    ensures coefficients_after { let a = addition.now in coefficients.new
        ≡ add_scaled a.p (factor_of a.p a.inverse (row_value_at a.p a.point.now a.values.now lead.now coefficients.old)) coefficients.old a.gone.now }
    ensures row_after { let a = addition.now in row.new
        ≡ corrected_row a.p a.place a.inverse a.gone.now a.point.now a.values.now lead.now coefficients.old }
{
    let p = addition.p;
    let v = row_value(p, addition.point, addition.values, lead, coefficients);
    let factor = arithmetic::neg(p, arithmetic::mul(p, v, addition.inverse));
    put_corrected(p, addition.place, factor, addition.gone, coefficients, row);
}

// The first k rows corrected, each in its part of the table of coefficients.
pub(crate) fn correct_rows(addition: &Addition, k: usize, leads: &[u8], table: &mut [u8])
    requires k_in_bounds { (8 * k ≤ length leads.now) × (64 * k ≤ length table.old) }
    requires below { Below addition.now.p table.old }
    ensures { let a = addition.now in table.new
        ≡ over (in_places 64 (corrected_rows a.p a.place a.inverse a.gone.now a.point.now a.values.now leads.now table.old k)) table.old }
{
    for (i, lead) in rows(k, leads).iter().enumerate() {
        let mut coefficients = [0u8; sizes::POINTS];
        let first = 64 * i;
        bytes::copy(&table[first..first + 64], &mut coefficients);
        correct(
            addition,
            lead,
            &mut coefficients,
            &mut table[first..first + 64],
        );
    }
}
