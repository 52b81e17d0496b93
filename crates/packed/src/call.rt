// The call that draws up modulo 2 in words.
ghost use Rattle.std.specs.Prelude.{◌≡◌, Ok, false, length};
ghost use Rattle.residue.specs.Sizes.{counts_size};
ghost use Rattle.specification.specs.Answers.{answer_of};
ghost use Rattle.specification.specs.Lent.{lent_mut, left_in};
ghost use Rattle.specification.specs.Tables.{points_in, too_short};
ghost use Rattle.specification.specs.Adding.{ended, draw_packed_outcome, holding_both};
ghost use Rattle.construction.specs.Drawing.{PointsGiven};

use crate::drawing::draw_anew;
use basis::drawing::gather_levels;
use residue::{bytes, sizes};
use specification::answers::Size;
use specification::refusals::Refusal;
use specification::settings::Settings;
use specification::tables::{TablesMut, TablesRef};

// The basis of the n points of a table modulo 2, with the counts in `times`, drawn up in words and written to lent tables, and the answer that says so.
fn draw_points_packed(
    settings: Settings,
    n: usize,
    points: &[u8],
    times: &[u8],
    tables: TablesMut<'_>,
) -> Size
    requires points_given { PointsGiven settings n points.now × (settings.modulus ≡ 2) }
    requires times_len { length times.now ≡ counts_size }
    requires counts_value { too_short (lent_mut tables) ≡ false }
    ensures { ended (answer_of (Ok result)) (left_in tables.exit)
        ≡ holding_both settings (points_in settings n points.now) times.now (lent_mut tables.entry) }
{
    let TablesMut {
        states,
        standard,
        leads,
        coefficients,
        counts,
    } = tables;
    bytes::copy(points, states);
    bytes::copy(times, counts);
    let r = draw_anew(
        settings,
        n,
        points,
        &mut standard[..sizes::STANDARD],
        &mut leads[..sizes::LEADS],
        &mut coefficients[..sizes::COEFFICIENTS],
    );
    Size {
        n: n as u8,
        r: r as u16,
    }
}

// Drawing up modulo 2 in words: what `basis::drawing::draw_up` answers and leaves, but for the cancellations. A modulus other than 2 is refused.
pub fn draw_up_packed(
    settings: Settings,
    tables: TablesMut<'_>,
    levels: &[i8],
) -> Result<Size, Refusal>
    ensures { ended (answer_of result) (left_in tables.exit) ≡ draw_packed_outcome settings (lent_mut tables.entry) levels.now }
{
    if settings.modulus != 2 {
        return Err(Refusal::Modulus);
    }
    let TablesMut {
        states,
        standard,
        leads,
        coefficients,
        counts,
    } = tables;
    let lent = TablesRef {
        states,
        standard,
        leads,
        coefficients,
        counts,
    };
    let mut points = [0u8; sizes::STATES];
    let mut times = [0u8; sizes::COUNTS];
    let n = gather_levels(settings, lent.too_short(), levels, &mut points, &mut times)?;
    let tables = TablesMut {
        states,
        standard,
        leads,
        coefficients,
        counts,
    };
    Ok(draw_points_packed(settings, n, &points, &times, tables))
}
