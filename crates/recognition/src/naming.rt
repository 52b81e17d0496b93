// A point that a call names by its levels: the look at the tables, and where the point stands among theirs. Adding and withdrawing begin so.
ghost use Rattle.std.specs.Prelude.{◌≡◌, replicate};
ghost use Rattle.residue.specs.Sizes.{states_size};
ghost use Rattle.specification.specs.Lent.{lent};
ghost use Rattle.construction.specs.Drawing.{RowsLong};
ghost use Rattle.recognition.specs.Naming.{LocatedAs};

use crate::looking::{Faults, look};
use points::levels::put_residues;
use points::places::place_of;
use specification::refusals::Refusal;
use specification::settings::Settings;
use specification::tables::TablesRef;

// The place where the point of these levels stands among the n of the tables, which is n where it is new. The points of the tables, their pivot rows and the
// point are left in working arrays.
pub fn locate(
    settings: Settings,
    n: u64,
    r: u64,
    tables: TablesRef<'_>,
    levels: &[i8],
    points: &mut [u8],
    rows: &mut [u8],
    pivots: &mut [u8],
    point: &mut [u8],
) -> Result<usize, Refusal>
    requires { (points.old ≡ replicate states_size 0) × (RowsLong rows.old pivots.old × (point.old ≡ replicate 8 0)) }
    ensures { LocatedAs settings n r (lent tables.entry) levels.now points.old rows.old pivots.old point.old result
        points.new rows.new pivots.new point.new }
{
    let faults = Faults {
        short: false,
        wrong: levels.len() as u64 != settings.variables,
        many: false,
    };
    look(
        settings,
        n,
        r,
        tables,
        faults,
        levels,
        &[],
        points,
        rows,
        pivots,
    )?;
    put_residues(settings.modulus as u8, levels, point);
    Ok(place_of(n as usize, points, point))
}
