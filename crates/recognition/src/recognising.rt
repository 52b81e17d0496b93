// Whether lent tables are the basis of their points.
ghost use Rattle.std.specs.Prelude.{◌≡◌, true, false, ◌&&◌, ◌≤◌, length, replicate};
ghost use Rattle.residue.specs.Sizes.{states_size, standard_size, leads_size, coefficients_size, counts_size};
ghost use Rattle.residue.specs.Lists.{every};
ghost use Rattle.residue.specs.Layout.{fill, in_places, begins};
ghost use Rattle.specification.specs.Refusal.{first_of};
ghost use Rattle.specification.specs.Settings.{settings_cases};
ghost use Rattle.specification.specs.Counted.{is_count};
ghost use Rattle.specification.specs.Lent.{lent};
ghost use Rattle.specification.specs.Tables.{points_in, recognised, too_short};
ghost use Rattle.construction.specs.Drawing.{RowsLong, Solves, pivot_bytes, pivot_rows_left};

use construction::drawing::draw;
use points::{levels, places};
use residue::{bytes, sizes};
use specification::settings::Settings;
use specification::tables::TablesRef;

// Whether a lent table has a count for each of n points, and 0 for unused places.
fn counts_fit(n: usize, counts: &[u8]) -> bool
    requires { (n ≤ counts_size) × (counts_size ≤ length counts.now) }
    ensures { result ≡ (every is_count (fill n counts.now)
        && begins (fill counts_size (fill n counts.now)) counts.now) }
{
    !counts[..n].contains(&0) && bytes::all_zero(&counts[n..sizes::COUNTS])
}

// Whether the lent tables begin with these, and the counts fit n points.
fn agree(
    n: usize,
    new_states: &[u8],
    new_standard: &[u8],
    new_leads: &[u8],
    new_coefficients: &[u8],
    tables: TablesRef<'_>,
) -> bool
    requires n_le_counts_size { n ≤ counts_size }
    requires new_states_len { (length new_states.now ≡ states_size)
        × ((length new_standard.now ≡ standard_size)
        × ((length new_leads.now ≡ leads_size) × (length new_coefficients.now ≡ coefficients_size))) }
    requires counts_value { too_short (lent tables) ≡ false }
    ensures { result ≡ (begins new_states.now tables.entry.states.now
        && (begins new_standard.now tables.entry.standard.now
        && (begins new_leads.now tables.entry.leads.now
        && (begins new_coefficients.now tables.entry.coefficients.now
        && (every is_count (fill n tables.entry.counts.now)
        && begins (fill counts_size (fill n tables.entry.counts.now)) tables.entry.counts.now))))) }
{
    bytes::begins(new_states, tables.states)
        && bytes::begins(new_standard, tables.standard)
        && bytes::begins(new_leads, tables.leads)
        && bytes::begins(new_coefficients, tables.coefficients)
        && counts_fit(n, tables.counts)
}

// Whether lent tables are the basis of their points. The points are left as a table, and where none repeats their pivot rows.
pub(crate) fn recognise(
    settings: Settings,
    n: usize,
    r: u64,
    tables: TablesRef<'_>,
    points: &mut [u8],
    rows: &mut [u8],
    pivots: &mut [u8],
) -> bool
    requires settings_value { (first_of 0 (settings_cases settings) ≡ 0) × (n ≤ 64) }
    requires counts_value { too_short (lent tables) ≡ false }
    requires points_value { (points.old ≡ replicate states_size 0) × RowsLong rows.old pivots.old }
    ensures value { result ≡ recognised settings n r (lent tables.entry) }
    ensures points_after { points.new ≡ fill states_size (in_places 8 (points_in settings n tables.entry.states.now)) }
    ensures solves { result ≡ true → Solves settings (points_in settings n tables.entry.states.now) rows.new pivots.new }
    ensures pivots_after { pivot_bytes rows.new pivots.new
        ≡ pivot_rows_left settings (points_in settings n tables.entry.states.now) rows.old pivots.old }
{
    levels::read_points(settings, n, tables.states, points);
    if !places::no_repeat(n, points) {
        return false;
    }
    let mut new_standard = [0u8; sizes::STANDARD];
    let mut new_leads = [0u8; sizes::LEADS];
    let mut new_coefficients = [0u8; sizes::COEFFICIENTS];
    let drawn = draw(
        settings,
        n,
        points,
        &mut new_standard,
        &mut new_leads,
        &mut new_coefficients,
        rows,
        pivots,
    );
    if drawn.r as u64 != r {
        return false;
    }
    agree(
        n,
        points,
        &new_standard,
        &new_leads,
        &new_coefficients,
        tables,
    )
}
