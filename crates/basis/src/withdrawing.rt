// Withdrawing a point from tables. Every refusal is decided before a lent byte is written; then its count is lowered, or, where that was 1, the points that are
// left are drawn up anew, over the pivot rows with which the tables were recognised: two sets of them would take more stack than the header promises.
ghost use Rattle.std.specs.Prelude.{◌≡◌, Ok, false, cond, ◌-◌, ◌<◌, ◌≤◌, get_or, ltb};
ghost use Rattle.residue.specs.Layout.{fill};
ghost use Rattle.monomial.specs.Insert.{removed_at};
ghost use Rattle.specification.specs.Answers.{answer_of};
ghost use Rattle.specification.specs.Lent.{lent_mut, left_in};
ghost use Rattle.specification.specs.Tables.{points_in, too_short};
ghost use Rattle.specification.specs.Adding.{ended, holding_both};
ghost use Rattle.specification.specs.Withdrawing.{withdraw_outcome};
ghost use Rattle.specification.specs.CallByCall.{recounted};
ghost use Rattle.specification.specs.Points.{Points};
ghost use Rattle.construction.specs.Drawing.{RowsLong, PointsGiven, pivot_bytes, pivot_rows_under};

use crate::drawing::draw_points;
use monomial::insert::take_out;
use recognition::naming::locate;
use residue::sizes;
use specification::answers::Size;
use specification::refusals::Refusal;
use specification::settings::Settings;
use specification::tables::{TablesMut, TablesRef};

// One occurrence fewer of the point at a place among the n of a table: its count is lowered, or, where that was 1, the points and counts behind move up and the
// points that are left are drawn up.
fn withdraw_accepted(
    settings: Settings,
    n: usize,
    r: u16,
    place: usize,
    points: &[u8],
    tables: TablesMut<'_>,
    rows: &mut [u8],
    pivots: &mut [u8],
) -> Size
    requires points_given { PointsGiven settings n points.now × (place < n) }
    requires points { get_or tables.counts.now place 0 ≤ 1 → Points settings (removed_at place (points_in settings n points.now)) }
    requires counts_value { too_short (lent_mut tables) ≡ false }
    requires rows_long { RowsLong rows.old pivots.old }
    ensures counts_after { ended (answer_of (Ok result)) (left_in tables.exit)
        ≡ cond (ltb 1 (get_or tables.entry.counts.now place 0))
        (recounted n r (lent_mut tables.entry) place (get_or tables.entry.counts.now place 0 - 1))
        (holding_both settings (removed_at place (points_in settings n points.now)) (removed_at place (fill n tables.entry.counts.now)) (lent_mut tables.entry)) }
    ensures pivots_after { pivot_bytes rows.new pivots.new
        ≡ cond (ltb 1 (get_or tables.entry.counts.now place 0)) (pivot_bytes rows.old pivots.old)
        (pivot_rows_under settings (removed_at place (points_in settings n points.now)) rows.old pivots.old) }
{
    let TablesMut {
        states,
        standard,
        leads,
        coefficients,
        counts,
    } = tables;
    let count = counts[place];
    if 1 < count {
        counts[place] = count - 1;
        return Size { n: n as u8, r };
    }
    let mut left = [0u8; sizes::STATES];
    let mut times = [0u8; sizes::COUNTS];
    take_out(8, n, place, points, &mut left);
    take_out(1, n, place, counts, &mut times);
    let tables = TablesMut {
        states,
        standard,
        leads,
        coefficients,
        counts,
    };
    let drawn = draw_points(settings, n - 1, &left, &times, tables, rows, pivots);
    Size {
        n: drawn.n,
        r: drawn.r,
    }
}

// Withdrawing one of the n points of the tables.
pub fn withdraw_point(
    settings: Settings,
    n: u64,
    r: u64,
    tables: TablesMut<'_>,
    levels: &[i8],
) -> Result<Size, Refusal>
    ensures { ended (answer_of result) (left_in tables.exit) ≡ withdraw_outcome settings n r (lent_mut tables.entry) levels.now }
{
    let mut points = [0u8; sizes::STATES];
    let mut rows = [0u8; sizes::PIVOT_ROWS];
    let mut pivots = [0u8; sizes::POINTS];
    let mut point = [0u8; 8];
    let TablesMut {
        states,
        standard,
        leads,
        coefficients,
        counts,
    } = tables;
    let lent = TablesRef {
        states,
        standard,
        leads,
        coefficients,
        counts,
    };
    let place = locate(
        settings,
        n,
        r,
        lent,
        levels,
        &mut points,
        &mut rows,
        &mut pivots,
        &mut point,
    )?;
    let count = n as usize;
    if place == count {
        return Err(Refusal::NotThere);
    }
    let tables = TablesMut {
        states,
        standard,
        leads,
        coefficients,
        counts,
    };
    Ok(withdraw_accepted(
        settings,
        count,
        r as u16,
        place,
        &points,
        tables,
        &mut rows,
        &mut pivots,
    ))
}
