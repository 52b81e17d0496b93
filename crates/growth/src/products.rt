// The new leads when a point is added, the products of the lost lead with the variables, and their rows.
ghost use Rattle.std.specs.Prelude.{◌≡◌, ℕ, ◌+◌, ◌*◌, ◌<◌, ◌≤◌, length, get_or};
ghost use Rattle.residue.specs.Sizes.{most_points, most_rows, states_size, leads_size, coefficients_size, pivot_rows_size};
ghost use Rattle.residue.specs.Vector.{Below};
ghost use Rattle.residue.specs.Layout.{groups};
ghost use Rattle.elimination.specs.Elimination.{Multiplied};
ghost use Rattle.monomial.specs.Order.{cmp};
ghost use Rattle.monomial.specs.Insert.{place_of, with_row_at};
ghost use Rattle.specification.specs.Settings.{Accepted};
ghost use Rattle.specification.specs.Tables.{order_under};
ghost use Rattle.growth.specs.Growing.{corrected_row, reduced_row, grown, product_put, products_put};

use crate::addition::Addition;
use crate::correcting;
use elimination::reducing::eliminate;
use monomial::insert;
use monomial::order::Order;
use monomial::terms::put_term_values;
use residue::{bytes, sizes};
use specification::settings::Settings;

// Puts a monomial in at its place among the k increasing ones of a table, and answers the place. An addition reads the settings' order and weights here alone.
pub(crate) fn put_under(settings: Settings, k: usize, table: &mut [u8], a: &[u8; 8]) -> usize
    requires { (8 * k + 8 ≤ length table.old) × (k ≤ 448) }
    ensures value { result ≡ place_of (cmp (order_under settings)) a.now (groups 8 k table.old) }
    ensures table_after { table.new ≡ with_row_at 8 k result a.now table.old }
{
    insert::put_in(&Order::of(settings.order, settings.weights), k, table, a)
}

// The row of a monomial put into the table of coefficients before row i of k: its values at the n points are eliminated, and what they leave is corrected.
fn put_row(addition: &Addition, a: &[u8; 8], k: usize, i: usize, table: &mut [u8])
    requires { (i ≤ k) × (k ≤ 448) × (64 * k + 64 ≤ length table.old) }
    ensures { let x = addition.now in table.new
        ≡ with_row_at 64 k i (corrected_row x.p x.place x.inverse x.gone.now x.point.now x.values.now a.now
        (reduced_row x.p x.n x.points.now x.rows.now x.pivots.now a.now)) table.old }
{
    let n = addition.n;
    let mut work = [0u8; sizes::WORK];
    put_term_values(addition.p, &[1u8], a, n, addition.points, &mut work);
    eliminate(
        addition.p,
        sizes::WORK,
        n,
        addition.rows,
        addition.pivots,
        &mut work,
    );
    let from = 64 * i;
    insert::move_on(64, from, 64 * k, table);
    correcting::correct(
        addition,
        a,
        &mut work[n..n + 64],
        &mut table[from..from + 64],
    );
}

// A product of the lost lead put in with its row, unless one of k other leads divides it. Answers how many leads there are then.
fn add_product(
    settings: Settings,
    addition: &Addition,
    k: usize,
    others: &[u8],
    a: &[u8; 8],
    count: usize,
    leads: &mut [u8],
    coefficients: &mut [u8],
) -> usize
    requires { (8 * k ≤ length others.now) × (count ≤ 448) × (length leads.old ≡ leads_size) × (length coefficients.old ≡ coefficients_size) }
    ensures { let x = addition.now in grown result leads.new coefficients.new
        ≡ product_put x.p (order_under settings) x.n x.points.now x.rows.now x.pivots.now x.place x.inverse
        x.gone.now x.point.now x.values.now k others.now a.now (grown count leads.old coefficients.old) }
{
    if insert::divided(k, others, a) {
        return count;
    }
    let i = put_under(settings, count, leads, a);
    put_row(addition, a, count, i, coefficients);
    count + 1
}

// The products of the lost lead with the m variables. Answers how many leads there are then; before, the k others alone.
pub(crate) fn add_products(
    settings: Settings,
    addition: &Addition,
    k: usize,
    lead: &[u8; 8],
    leads: &mut [u8],
    coefficients: &mut [u8],
) -> usize
    requires accepted { Accepted settings }
    requires variables_bound { (k + settings.variables ≤ most_rows) × (length leads.old ≡ leads_size) × (length coefficients.old ≡ coefficients_size) }
    requires lead_below { (v : ℕ) → get_or lead.now v 0 < 255 }
    ensures { let x = addition.now in grown result leads.new coefficients.new
        ≡ products_put x.p (order_under settings) x.n x.points.now x.rows.now x.pivots.now x.place x.inverse
        x.gone.now x.point.now x.values.now k leads.old lead.now settings.variables (grown k leads.old coefficients.old) }
{
    let m = settings.variables as usize;
    let mut others = [0u8; sizes::LEADS];
    bytes::copy(leads, &mut others);
    let mut count = k;
    for v in 0..m {
        let mut a = *lead;
        a[v] += 1;
        count = add_product(
            settings,
            addition,
            k,
            &others,
            &a,
            count,
            leads,
            coefficients,
        );
    }
    count
}
