// Adding a point to tables. Every refusal is decided before a lent byte is written.
ghost use Rattle.std.specs.Prelude.{◌≡◌, Ok, true, false, cond, [], ◌∷◌, ◌++◌, ◌+◌, ◌<◌, ◌≤◌, eqb, ltb, length, take, get_or, set};
ghost use Rattle.residue.specs.Sizes.{most_rows, states_size, standard_size, leads_size, coefficients_size, counts_size};
ghost use Rattle.residue.specs.Layout.{fill, with_place, begins};
ghost use Rattle.specification.specs.Answers.{refusal_of, answer_of};
ghost use Rattle.specification.specs.Lent.{lent_mut, left_in};
ghost use Rattle.specification.specs.Tables.{too_short, points_in};
ghost use Rattle.specification.specs.Adding.{ended, add_outcome, holding_both};
ghost use Rattle.construction.specs.Drawing.{PointsGiven, DrawnUp};
ghost use Rattle.growth.specs.Growing.{all_points, NewPoint};

use growth::growing::add_tables;
use recognition::naming::locate;
use residue::sizes;
use specification::answers::Size;
use specification::refusals::Refusal;
use specification::settings::Settings;
use specification::tables::{TablesMut, TablesRef};

// What refuses a point at this place among the n: it is there and counted 255 times, or it is new beside 64 others.
#[tactic(auto, unfolding(specification::specs::Answers::refusal_of, specification::specs::Answers::number_of))]
fn check_room(n: usize, place: usize, counts: &[u8]) -> Result<(), Refusal>
    requires { n ≤ length counts.now }
    ensures { refusal_of result ≡ cond (ltb place n) (cond (eqb (get_or counts.now place 0) 255) 13 0) (cond (eqb n 64) 8 0) }
{
    if place < n {
        if counts[place] == 255 {
            return Err(Refusal::TooOften);
        }
    } else if n == 64 {
        return Err(Refusal::TooMany);
    }
    Ok(())
}

// A point that is there, counted once more: one byte is written.
fn raise(n: usize, r: usize, place: usize, counts: &mut [u8]) -> Size
    requires n_bound { (n ≤ 64) × (r ≤ most_rows) }
    requires place_in_bounds { (place < length counts.old) × (get_or counts.old place 0 ≡ 255 → ⊥) }
    ensures value { result ≡ record { n = n; r = r } }
    ensures counts_after { counts.new ≡ set counts.old place (get_or counts.old place 0 + 1) }
{
    counts[place] += 1;
    Size {
        n: n as u8,
        r: r as u16,
    }
}

// The table of the points with the new one behind them.
fn add_state(n: usize, points: &[u8], point: &[u8], states: &mut [u8])
    requires { (n < 64) × ((length points.now ≡ states_size) × ((length point.now ≡ 8) × (length states.old ≡ states_size))) }
    ensures { states.new ≡ with_place 8 n point.now points.now }
{
    states.copy_from_slice(points);
    let from = 8 * n;
    states[from..from + 8].copy_from_slice(point);
}

// The new point with the count 1 and the tables of all points, written to lent tables that hold those of the points before, and the answer that says so.
fn add_accepted(
    settings: Settings,
    n: usize,
    r: usize,
    points: &[u8],
    rows: &[u8],
    pivots: &[u8],
    point: &[u8],
    tables: TablesMut<'_>,
) -> Size
    requires points_given { PointsGiven settings n points.now }
    requires counts_value { too_short (lent_mut tables) ≡ false }
    requires drawn_up { DrawnUp settings (points_in settings n points.now) r (take standard_size tables.standard.now) (take leads_size tables.leads.now)
        (take coefficients_size tables.coefficients.now) rows.now pivots.now }
    requires n_bound { (n < 64) × (begins (fill counts_size (fill n tables.counts.now)) tables.counts.now ≡ true) }
    requires new_point { NewPoint settings (points_in settings n points.now) point.now }
    ensures { ended (answer_of (Ok result)) (left_in tables.exit)
        ≡ holding_both settings (all_points settings n points.now point.now) (fill n tables.entry.counts.now ++ (1 ∷ [])) (lent_mut tables.entry) }
{
    let TablesMut {
        states,
        standard,
        leads,
        coefficients,
        counts,
    } = tables;
    add_state(n, points, point, &mut states[..sizes::STATES]);
    let k = add_tables(
        settings,
        n,
        r,
        points,
        rows,
        pivots,
        point,
        &mut standard[..sizes::STANDARD],
        &mut leads[..sizes::LEADS],
        &mut coefficients[..sizes::COEFFICIENTS],
    );
    counts[n] = 1;
    Size {
        n: n as u8 + 1,
        r: k as u16,
    }
}

// Adding one point to the n points of the tables. Of one that is there a count is raised, and nothing else is written.
pub fn add_point(
    settings: Settings,
    n: u64,
    r: u64,
    tables: TablesMut<'_>,
    levels: &[i8],
) -> Result<Size, Refusal>
    ensures { ended (answer_of result) (left_in tables.exit) ≡ add_outcome settings n r (lent_mut tables.entry) levels.now }
{
    let mut points = [0u8; sizes::STATES];
    let mut rows = [0u8; sizes::PIVOT_ROWS];
    let mut pivots = [0u8; sizes::POINTS];
    let mut point = [0u8; 8];
    let TablesMut {
        states,
        standard,
        leads,
        coefficients,
        counts,
    } = tables;
    let lent = TablesRef {
        states,
        standard,
        leads,
        coefficients,
        counts,
    };
    let place = locate(
        settings,
        n,
        r,
        lent,
        levels,
        &mut points,
        &mut rows,
        &mut pivots,
        &mut point,
    )?;
    check_room(n as usize, place, counts)?;
    if place < n as usize {
        return Ok(raise(n as usize, r as usize, place, counts));
    }
    let tables = TablesMut {
        states,
        standard,
        leads,
        coefficients,
        counts,
    };
    Ok(add_accepted(
        settings, n as usize, r as usize, &points, &rows, &pivots, &point, tables,
    ))
}
