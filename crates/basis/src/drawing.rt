// Drawing up from all points at once.
ghost use Rattle.std.specs.Prelude.{◌≡◌, Ok, not, false, ◌∷◌, ◌++◌, ℕ, ◌%◌, length, replicate, eqb};
ghost use Rattle.residue.specs.Sizes.{states_size, counts_size};
ghost use Rattle.residue.specs.Layout.{fill};
ghost use Rattle.specification.specs.Answers.{refusal_of, drawn_of};
ghost use Rattle.specification.specs.Lent.{lent_mut, left_in};
ghost use Rattle.specification.specs.Refusal.{first_of};
ghost use Rattle.specification.specs.Settings.{settings_cases};
ghost use Rattle.specification.specs.Levels.{in_range};
ghost use Rattle.specification.specs.Counted.{points_of, counts_of, gathered, overfull};
ghost use Rattle.specification.specs.Tables.{points_in, too_short, states_table};
ghost use Rattle.specification.specs.Adding.{draw_ended, costing, cancellations_under, points_offered, draw_outcome, holding_both};
ghost use Rattle.construction.specs.Drawing.{RowsLong, PointsGiven, Solves, pivot_bytes, pivot_rows_under};

use construction::drawing::draw_anew;
use points::gathering::gather;
use points::levels::in_range;
use recognition::settings::draw_sizes;
use residue::{bytes, sizes};
use specification::answers::Drawing;
use specification::refusals::Refusal;
use specification::settings::Settings;
use specification::tables::{TablesMut, TablesRef};

// The basis of the n points of a table, with the counts in `times`, written to lent tables over lent pivot rows, and the answer that says so.
pub fn draw_points(
    settings: Settings,
    n: usize,
    points: &[u8],
    times: &[u8],
    tables: TablesMut<'_>,
    rows: &mut [u8],
    pivots: &mut [u8],
) -> Drawing
    requires points_given { PointsGiven settings n points.now }
    requires times_len { length times.now ≡ counts_size }
    requires counts_value { too_short (lent_mut tables) ≡ false }
    requires rows_long { RowsLong rows.old pivots.old }
    ensures counts_after { draw_ended (drawn_of (Ok result)) (left_in tables.exit)
        ≡ costing (cancellations_under settings (points_in settings n points.now))
        (holding_both settings (points_in settings n points.now) times.now (lent_mut tables.entry)) }
    ensures pivots_after { pivot_bytes rows.new pivots.new
        ≡ pivot_rows_under settings (points_in settings n points.now) rows.old pivots.old }
    ensures solves { Solves settings (points_in settings n points.now) rows.new pivots.new }
{
    let TablesMut {
        states,
        standard,
        leads,
        coefficients,
        counts,
    } = tables;
    bytes::copy(points, states);
    bytes::copy(times, counts);
    let drawn = draw_anew(
        settings,
        n,
        points,
        &mut standard[..sizes::STANDARD],
        &mut leads[..sizes::LEADS],
        &mut coefficients[..sizes::COEFFICIENTS],
        rows,
        pivots,
    );
    Drawing {
        n: n as u8,
        r: drawn.r as u16,
        cancellations: drawn.cancellations as u32,
    }
}

// The distinct points of the levels of a drawing up, left in a table with their counts, and how many they are; or what refuses it. `short` is whether a lent
// table is too short.
pub fn gather_levels(
    settings: Settings,
    short: bool,
    levels: &[i8],
    points: &mut [u8],
    times: &mut [u8],
) -> Result<usize, Refusal>
    requires { (points.old ≡ replicate states_size 0) × (times.old ≡ replicate counts_size 0) }
    ensures refusal_value { refusal_of result ≡ first_of 0 (settings_cases settings
        ++ ((short, 6)
        ∷ (not (eqb (length levels.now % settings.variables) 0), 7)
        ∷ (not (in_range settings.modulus levels.now), 9)
        ∷ overfull (gathered (points_offered settings levels.now)))) }
    ensures tabled { (n : ℕ) → result ≡ Ok n → (n ≡ length (gathered (points_offered settings levels.now)))
        × ((points.new ≡ states_table (points_of (gathered (points_offered settings levels.now))))
        × (times.new ≡ fill counts_size (counts_of (gathered (points_offered settings levels.now))))) }
{
    draw_sizes(settings, short, levels.len())?;
    let p = settings.modulus as u8;
    if !in_range(p, levels) {
        return Err(Refusal::OutOfRange);
    }
    let m = settings.variables as usize;
    gather(p, m, levels.len() / m, levels, points, times)
}

// Drawing up from all points at once. Every refusal is decided before a lent byte is written.
pub fn draw_up(settings: Settings, tables: TablesMut<'_>, levels: &[i8]) -> Result<Drawing, Refusal>
    ensures { draw_ended (drawn_of result) (left_in tables.exit) ≡ draw_outcome settings (lent_mut tables.entry) levels.now }
{
    let TablesMut {
        states,
        standard,
        leads,
        coefficients,
        counts,
    } = tables;
    let lent = TablesRef {
        states,
        standard,
        leads,
        coefficients,
        counts,
    };
    let mut points = [0u8; sizes::STATES];
    let mut times = [0u8; sizes::COUNTS];
    let n = gather_levels(settings, lent.too_short(), levels, &mut points, &mut times)?;
    let mut rows = [0u8; sizes::PIVOT_ROWS];
    let mut pivots = [0u8; sizes::POINTS];
    let tables = TablesMut {
        states,
        standard,
        leads,
        coefficients,
        counts,
    };
    Ok(draw_points(settings, n, &points, &times, tables, &mut rows, &mut pivots))
}
