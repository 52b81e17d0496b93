// A text printed.
ghost use Rattle.std.specs.Prelude.{◌≡◌, ℕ, ◌<◌, ◌≤◌, length, get_or, replicate};
ghost use Rattle.residue.specs.Sizes.{most_points, work_size, pivot_rows_size};
ghost use Rattle.residue.specs.Vector.{Below};
ghost use Rattle.elimination.specs.Elimination.{Multiplied};
ghost use Rattle.residue.specs.Layout.{fill};
ghost use Rattle.specification.specs.Tables.{points_in};
ghost use Rattle.construction.specs.Drawing.{PointsGiven};
ghost use Rattle.interpolation.specs.Solving.{solution};
ghost use Rattle.writing.specs.Appending.{Put};
ghost use Rattle.printing.specs.Text.{lines_of, printed, print_outcome, Within};

use crate::lines::{print_basis, put_refusal};
use comma_text::reading::read_text;
use construction::drawing::draw;
use interpolation::pairs::put_names;
use interpolation::solving::solve;
use residue::{bytes, sizes};
use specification::settings::Settings;

// The interpolant of n values, in 64 bytes of zeros.
fn solve_bytes(p: u8, n: usize, values: &[u8], rows: &[u8], pivots: &[u8], out: &mut [u8])
    requires le_p { (2 ≤ p) × (p ≤ 61) }
    requires values_len { (length values.now ≡ n) × (Below p values.now) }
    requires n_bound { (n ≤ 64) × (length rows.now ≡ pivot_rows_size) × (length pivots.now ≡ most_points) }
    requires multiplied { (Multiplied p n rows.now) × ((t : ℕ) → t < n → get_or pivots.now t 0 < n) }
    requires out_value { out.old ≡ replicate 64 0 }
    ensures { out.new ≡ fill 64 (solution p n rows.now pivots.now (fill work_size values.now)) }
{
    let mut work = [0u8; sizes::WORK];
    bytes::copy(values, &mut work);
    solve(p, n, rows, pivots, &mut work, out);
}

// The basis of the n points of a table, the interpolant of n values at them and their wiring list, printed.
fn print_points(settings: Settings, n: usize, points: &[u8], values: &[u8], out: &mut [u8]) -> usize
    requires points_given { PointsGiven settings n points.now }
    requires values_len { (length values.now ≡ n) × (Below settings.modulus values.now) }
    requires in_bounds { 102048 ≤ length out.old }
    ensures fact_1 { Put 0 (lines_of settings (points_in settings n points.now) values.now) out.old out.new result }
    ensures fact_2 { Within result out.new }
{
    let mut standard = [0u8; sizes::STANDARD];
    let mut leads = [0u8; sizes::LEADS];
    let mut coefficients = [0u8; sizes::COEFFICIENTS];
    let mut rows = [0u8; sizes::PIVOT_ROWS];
    let mut pivots = [0u8; sizes::POINTS];
    let drawn = draw(
        settings,
        n,
        points,
        &mut standard,
        &mut leads,
        &mut coefficients,
        &mut rows,
        &mut pivots,
    );
    let mut interpolant = [0u8; sizes::POINTS];
    solve_bytes(
        settings.modulus as u8,
        n,
        values,
        &rows,
        &pivots,
        &mut interpolant,
    );
    let m = settings.variables as usize;
    let mut names = [0u8; 8];
    let count = put_names(m, n, points, values, &mut names) as usize;
    print_basis(
        m,
        n,
        drawn.r,
        &standard,
        &leads,
        &coefficients,
        &interpolant[..n],
        &names[..count],
        out,
    )
}

// A text printed: its refusal, or its basis, interpolant and wiring list. The answer is how many bytes were written.
pub fn print_text(text: &[u8], out: &mut [u8]) -> usize
    ensures fact_1 { printed result out.new ≡ print_outcome text.now out.old }
    ensures fact_2 { Within result out.new }
{
    if out.len() < 131072 {
        return 0;
    }
    let mut states = [0u8; sizes::STATES];
    let mut values = [0u8; sizes::POINTS];
    let mut counts = [0u8; sizes::COUNTS];
    let mut weights = [0u8; 8];
    let read = match read_text(text, &mut states, &mut values, &mut counts, &mut weights) {
        Ok(read) => read,
        Err(fault) => return put_refusal(out, 0, fault),
    };
    let n = read.n as usize;
    let settings = Settings {
        modulus: read.modulus as u64,
        variables: read.variables as u64,
        order: read.order as u64,
        weights,
    };
    print_points(settings, n, &states, &values[..n], out)
}
