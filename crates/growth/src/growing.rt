// Adding a point, by Lemma 2 of Farr and Gao: a row is lost, its lead becomes standard, and its products with the variables become leads.
ghost use Rattle.std.specs.Prelude.{◌≡◌, ℕ, ◌+◌, ◌<◌, ◌≤◌, length, get_or, replicate};
ghost use Rattle.residue.specs.Sizes.{most_points, most_rows, states_size, standard_size, leads_size, coefficients_size, pivot_rows_size};
ghost use Rattle.residue.specs.Vector.{Below};
ghost use Rattle.elimination.specs.Elimination.{Multiplied};
ghost use Rattle.residue.specs.Layout.{row_at};
ghost use Rattle.specification.specs.Tables.{order_under, points_in};
ghost use Rattle.specification.specs.Settings.{Accepted};
ghost use Rattle.growth.specs.Growing.{grown, others_of, others_corrected, standard_grown, grown_by, all_points, NewPoint};
ghost use Rattle.construction.specs.Drawing.{PointsGiven, Tabled, DrawnUp};

use crate::addition::Addition;
use crate::correcting;
use crate::products::{add_products, put_under};
use monomial::exponents::rows as rows_of;
use monomial::insert;
use monomial::value::values_at;
use residue::inverse::inverse;
use residue::{bytes, sizes};
use specification::settings::Settings;

// The basis of the points so far: n points, the tables with r rows, and the pivot rows.
#[derive(Drop)]
struct Basis<'a> {
    n: usize,
    r: usize,
    points: &'a [u8],
    standard: &'a [u8],
    leads: &'a [u8],
    coefficients: &'a [u8],
    rows: &'a [u8],
    pivots: &'a [u8],
}

// The leads but that of row j, and their rows corrected.
fn keep_others(
    addition: &Addition,
    r: usize,
    j: usize,
    leads: &[u8],
    coefficients: &[u8],
    new_leads: &mut [u8],
    new_coefficients: &mut [u8],
)
    requires j_lt_r { (j < r) × (r ≤ most_rows) × (length leads.now ≡ leads_size) × (length coefficients.now ≡ coefficients_size) }
    requires below { Below addition.now.p coefficients.now }
    requires new_leads_value { (new_leads.old ≡ replicate leads_size 0) × (new_coefficients.old ≡ replicate coefficients_size 0) }
    ensures new_leads_after { new_leads.new ≡ others_of r j leads.now }
    ensures new_coefficients_after { let a = addition.now in new_coefficients.new
        ≡ others_corrected a.p a.place a.inverse a.gone.now a.point.now a.values.now r j leads.now coefficients.now }
{
    insert::take_out(8, r, j, leads, new_leads);
    insert::take_out(64, r, j, coefficients, new_coefficients);
    correcting::correct_rows(addition, r - 1, new_leads, new_coefficients);
}

// The tables of n points and r rows once row j, which is not 0 at the new point, is lost. Answers how many rows there are then.
fn grow(
    settings: Settings,
    before: &Basis,
    point: &[u8],
    values: &[u8],
    j: usize,
    new_standard: &mut [u8],
    new_leads: &mut [u8],
    new_coefficients: &mut [u8],
) -> usize
    requires accepted { Accepted settings × (before.now.n < 64) }
    requires j_lt_r { let b = before.now in (j < b.r) × (b.r ≤ most_rows) × (b.r + settings.variables ≤ 450)
        × (length b.points.now ≡ states_size) × (length b.rows.now ≡ pivot_rows_size) }
    requires standard_len { let b = before.now in (length b.standard.now ≡ standard_size) × (length b.leads.now ≡ leads_size)
        × (length b.coefficients.now ≡ coefficients_size) × (length point.now ≡ 8) × (length values.now ≡ most_points) }
    requires below { let b = before.now in Below settings.modulus b.points.now × Below settings.modulus b.coefficients.now
        × Multiplied settings.modulus b.n b.rows.now × Below settings.modulus point.now × Below settings.modulus values.now }
    requires pivots_len { let b = before.now in (length b.pivots.now ≡ most_points) × ((t : ℕ) → t < b.n → get_or b.pivots.now t 0 < b.n) }
    requires leads_below { (i : ℕ) → get_or before.now.leads.now i 0 < 255 }
    requires new_standard_value { (new_standard.old ≡ replicate standard_size 0) × (new_leads.old ≡ replicate leads_size 0)
        × (new_coefficients.old ≡ replicate coefficients_size 0) }
    ensures new_standard_after { let b = before.now in new_standard.new
        ≡ standard_grown (order_under settings) b.n b.standard.now (row_at 8 j b.leads.now) }
    ensures new_coefficients_after { let b = before.now in grown result new_leads.new new_coefficients.new
        ≡ grown_by settings.modulus settings.variables (order_under settings) b.n b.r b.points.now b.standard.now b.leads.now
        b.coefficients.now b.rows.now b.pivots.now point.now values.now j }
{
    let p = settings.modulus as u8;
    let n = before.n;
    let r = before.r;
    let lead = &rows_of(r, before.leads)[j];
    let mut gone = [0u8; sizes::POINTS];
    bytes::copy(&before.coefficients[64 * j..64 * j + 64], &mut gone);
    let inverse = inverse(p, correcting::row_value(p, point, values, lead, &gone));
    bytes::copy(before.standard, new_standard);
    let place = put_under(settings, n, new_standard, lead);
    let addition = Addition {
        p,
        n,
        points: before.points,
        rows: before.rows,
        pivots: before.pivots,
        place,
        inverse,
        gone: &gone,
        point,
        values,
    };
    keep_others(
        &addition,
        r,
        j,
        before.leads,
        before.coefficients,
        new_leads,
        new_coefficients,
    );
    add_products(
        settings,
        &addition,
        r - 1,
        lead,
        new_leads,
        new_coefficients,
    )
}

// The tables of n points and r rows with a new point: the first row that is not 0 there is lost. Answers how many rows there are then.
fn add_to(
    settings: Settings,
    before: &Basis,
    point: &[u8],
    new_standard: &mut [u8],
    new_leads: &mut [u8],
    new_coefficients: &mut [u8],
) -> usize
    requires points_given { PointsGiven settings before.now.n before.now.points.now }
    requires drawn_up { let b = before.now in DrawnUp settings (points_in settings b.n b.points.now) b.r b.standard.now b.leads.now
        b.coefficients.now b.rows.now b.pivots.now }
    requires n_bound { before.now.n < 64 }
    requires new_point { NewPoint settings (points_in settings before.now.n before.now.points.now) point.now }
    requires new_standard_value { (new_standard.old ≡ replicate standard_size 0) × (new_leads.old ≡ replicate leads_size 0)
        × (new_coefficients.old ≡ replicate coefficients_size 0) }
    ensures { Tabled settings (all_points settings before.now.n before.now.points.now point.now) result new_standard.new new_leads.new
        new_coefficients.new }
{
    let p = settings.modulus as u8;
    let n = before.n;
    let r = before.r;
    let mut values = [0u8; sizes::POINTS];
    values_at(p, n, before.standard, point, &mut values);
    // The point is new, so that a row is not 0 there.
    let j = correcting::first_row(
        p,
        n,
        r,
        point,
        &values,
        before.leads,
        before.coefficients,
    ).unwrap();
    grow(
        settings,
        before,
        point,
        &values,
        j,
        new_standard,
        new_leads,
        new_coefficients,
    )
}

// The tables of all points, over those of the points before. Answers how many rows there are then.
pub fn add_tables(
    settings: Settings,
    n: usize,
    r: usize,
    points: &[u8],
    rows: &[u8],
    pivots: &[u8],
    point: &[u8],
    standard: &mut [u8],
    leads: &mut [u8],
    coefficients: &mut [u8],
) -> usize
    requires points_given { PointsGiven settings n points.now }
    requires drawn_up { DrawnUp settings (points_in settings n points.now) r standard.old leads.old coefficients.old rows.now pivots.now }
    requires n_bound { n < 64 }
    requires new_point { NewPoint settings (points_in settings n points.now) point.now }
    ensures { Tabled settings (all_points settings n points.now point.now) result standard.new leads.new
        coefficients.new }
{
    let mut new_standard = [0u8; sizes::STANDARD];
    let mut new_leads = [0u8; sizes::LEADS];
    let mut new_coefficients = [0u8; sizes::COEFFICIENTS];
    let before = Basis {
        n,
        r,
        points,
        standard,
        leads,
        coefficients,
        rows,
        pivots,
    };
    let k = add_to(
        settings,
        &before,
        point,
        &mut new_standard,
        &mut new_leads,
        &mut new_coefficients,
    );
    bytes::copy(&new_standard, standard);
    bytes::copy(&new_leads, leads);
    bytes::copy(&new_coefficients, coefficients);
    k
}
