// Checking lent tables.
ghost use Rattle.std.specs.Prelude.{◌≡◌};
ghost use Rattle.specification.specs.Answers.{refusal_of};
ghost use Rattle.specification.specs.Lent.{lent};
ghost use Rattle.specification.specs.Solving.{check_refusal};

use recognition::looking::{Faults, look};
use residue::sizes;
use specification::refusals::Refusal;
use specification::settings::Settings;
use specification::tables::TablesRef;

// Checking lent tables: the look at them alone.
pub fn check(settings: Settings, n: u64, r: u64, tables: TablesRef<'_>) -> Result<(), Refusal>
    ensures { refusal_of result ≡ check_refusal settings n r (lent tables.entry) }
{
    let mut points = [0u8; sizes::STATES];
    let mut rows = [0u8; sizes::PIVOT_ROWS];
    let mut pivots = [0u8; sizes::POINTS];
    let faults = Faults {
        short: false,
        wrong: false,
        many: false,
    };
    look(
        settings,
        n,
        r,
        tables,
        faults,
        &[],
        &[],
        &mut points,
        &mut rows,
        &mut pivots,
    )
}
