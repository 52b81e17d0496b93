// Drawing up from all points: elimination over value columns (Buchberger and Möller, 1982). Monomials come in increasing order, each a variable times a
// standard monomial found. One whose values are a combination of those of the standard monomials found is a leading monomial; any other is standard.
mod turns;

ghost use Rattle.std.specs.Prelude.{◌≡◌, ◌≤◌, length, replicate};
ghost use Rattle.residue.specs.Sizes.{standard_size, leads_size, coefficients_size};
ghost use Rattle.monomial.specs.Rank.{steps_of};
ghost use Rattle.specification.specs.Tables.{order_under, points_in};
ghost use Rattle.specification.specs.Adding.{cancellations_under};
ghost use Rattle.construction.specs.Drawing.{RowsLong, PointsGiven, DrawnUp, pivot_bytes, pivot_rows_under};

use crate::drawing::turns::{exponents_of, keep_lead, keep_standard, put_values, reduce};
use elimination::rows;
use monomial::candidate::next;
use monomial::columns::put_columns;
use monomial::order::Order;
use monomial::rank::variable_ranks;
use residue::{bytes, sizes};
use specification::settings::Settings;

// How many rows a basis has, and how many cancellations drawing it up took.
#[derive(Drop)]
pub struct Counts {
    pub r: usize,
    pub cancellations: usize,
}

// The ranks of the variables under the settings.
fn variable_ranks_under(settings: Settings) -> [u64; 8]
    ensures { result ≡ steps_of (order_under settings) }
{
    variable_ranks(&Order::of(settings.order, settings.weights))
}

// Fills the tables of the points' basis and its pivot rows.
pub fn draw(
    settings: Settings,
    n: usize,
    points: &[u8],
    standard: &mut [u8],
    leads: &mut [u8],
    coefficients: &mut [u8],
    rows: &mut [u8],
    pivots: &mut [u8],
) -> Counts
    requires points_given { PointsGiven settings n points.now }
    requires standard_value { (standard.old ≡ replicate standard_size 0) × ((leads.old ≡ replicate leads_size 0) × (coefficients.old ≡ replicate coefficients_size 0)) }
    requires rows_long { RowsLong rows.old pivots.old }
    ensures drawn_up { DrawnUp settings (points_in settings n points.now) result.r standard.new leads.new
        coefficients.new rows.new pivots.new }
    ensures cancellations_value { result.cancellations ≡ cancellations_under settings (points_in settings n points.now) }
    ensures pivots_after { pivot_bytes rows.new pivots.new
        ≡ pivot_rows_under settings (points_in settings n points.now) rows.old pivots.old }
{
    let p = settings.modulus as u8;
    let steps = variable_ranks_under(settings);
    let mut columns = [0u8; sizes::COLUMNS];
    put_columns(n, points, &mut columns);
    let mut values = [0u8; sizes::VALUES];
    let mut ranks = [0u64; sizes::POINTS];
    let mut at = [0u8; 8];
    let mut found = 0;
    let mut r = 0;
    let mut cancellations = 0;
    let mut exponents = [0u8; 8];
    let mut rank = 0u64;
    let mut own = [1u8; sizes::POINTS];
    loop {
        let mut work = [0u8; sizes::WORK];
        cancellations += reduce(p, n, found, &own, rows, pivots, &mut work);
        match rows::first_nonzero(&work, n) {
            None => {
                keep_lead(n, found, r, &exponents, &work, leads, coefficients);
                r += 1;
            }
            Some(q) => {
                keep_standard(found, &exponents, &own, standard, &mut values);
                ranks[found] = rank;
                rows::keep(p, n, found, q, &mut work, rows, pivots);
                found += 1;
            }
        }
        let m = settings.variables as usize;
        let Some(product) = next(m, found, standard, &ranks, &steps, &mut at) else {
            return Counts { r, cancellations };
        };
        rank = product.rank;
        exponents = exponents_of(&product, standard);
        put_values(p, n, &product, &columns, &values, &mut own);
    }
}

// The tables of the points' basis, over three lent tables of their sizes and over lent pivot rows.
pub fn draw_anew(
    settings: Settings,
    n: usize,
    points: &[u8],
    standard: &mut [u8],
    leads: &mut [u8],
    coefficients: &mut [u8],
    rows: &mut [u8],
    pivots: &mut [u8],
) -> Counts
    requires points_given { PointsGiven settings n points.now }
    requires standard_len { (length standard.old ≡ standard_size) × ((length leads.old ≡ leads_size) × (length coefficients.old ≡ coefficients_size)) }
    requires rows_long { RowsLong rows.old pivots.old }
    ensures drawn_up { DrawnUp settings (points_in settings n points.now) result.r standard.new leads.new
        coefficients.new rows.new pivots.new }
    ensures cancellations_value { result.cancellations ≡ cancellations_under settings (points_in settings n points.now) }
    ensures pivots_after { pivot_bytes rows.new pivots.new
        ≡ pivot_rows_under settings (points_in settings n points.now) rows.old pivots.old }
{
    bytes::clear(standard);
    bytes::clear(leads);
    bytes::clear(coefficients);
    draw(
        settings,
        n,
        points,
        standard,
        leads,
        coefficients,
        rows,
        pivots,
    )
}
