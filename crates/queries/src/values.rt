// The calls that answer from the basis of lent tables and values at its points: interpolant and wiring list.
ghost use Rattle.std.specs.Prelude.{◌≡◌};
ghost use Rattle.specification.specs.Answers.{refusal_of, wired_of};
ghost use Rattle.specification.specs.Lent.{lent};
ghost use Rattle.specification.specs.Solving.{answering, interpolate_outcome, listed, wiring_outcome};

use interpolation::{pairs, solving};
use points::levels;
use recognition::looking::{Faults, look};
use residue::{bytes, sizes};
use specification::refusals::Refusal;
use specification::settings::Settings;
use specification::tables::TablesRef;

// The interpolant of n values, in the order of the points.
pub fn interpolate(
    settings: Settings,
    n: u64,
    r: u64,
    tables: TablesRef<'_>,
    values: &[i8],
    out: &mut [u8],
) -> Result<(), Refusal>
    ensures { answering (refusal_of result) out.new
        ≡ interpolate_outcome settings n r (lent tables.entry)
        values.now out.old }
{
    let mut points = [0u8; sizes::STATES];
    let mut rows = [0u8; sizes::PIVOT_ROWS];
    let mut pivots = [0u8; sizes::POINTS];
    let faults = Faults {
        short: out.len() < 64,
        wrong: values.len() as u64 != n,
        many: false,
    };
    look(
        settings,
        n,
        r,
        tables,
        faults,
        values,
        &[],
        &mut points,
        &mut rows,
        &mut pivots,
    )?;
    solving::solve_values(
        settings.modulus as u8,
        n as usize,
        values,
        &rows,
        &pivots,
        out,
    );
    Ok(())
}

// The wiring list: on which variables every function depends that has these n values at the points. It does not ask for the interpolant.
pub fn wiring(
    settings: Settings,
    n: u64,
    r: u64,
    tables: TablesRef<'_>,
    values: &[i8],
    out: &mut [u8],
) -> Result<u8, Refusal>
    ensures { listed (wired_of result) out.new
        ≡ wiring_outcome settings n r (lent tables.entry)
        values.now out.old }
{
    let mut points = [0u8; sizes::STATES];
    let mut rows = [0u8; sizes::PIVOT_ROWS];
    let mut pivots = [0u8; sizes::POINTS];
    let faults = Faults {
        short: out.len() < 8,
        wrong: values.len() as u64 != n,
        many: false,
    };
    look(
        settings,
        n,
        r,
        tables,
        faults,
        values,
        &[],
        &mut points,
        &mut rows,
        &mut pivots,
    )?;
    let mut residues = [0u8; sizes::POINTS];
    levels::put_residues(settings.modulus as u8, values, &mut residues);
    let mut names = [0u8; 8];
    let count = pairs::put_names(
        settings.variables as usize,
        n as usize,
        &points,
        &residues,
        &mut names,
    );
    bytes::copy(&names, out);
    Ok(count)
}
