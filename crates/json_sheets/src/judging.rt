// What refuses a sheet that is to be written, or was read.
ghost use Rattle.std.specs.Prelude.{◌≡◌, ◌||◌};
ghost use Rattle.specification.specs.Answers.{refusal_of};
ghost use Rattle.specification.specs.Lent.{lent};
ghost use Rattle.specification.specs.Refusal.{first_of};
ghost use Rattle.specification.specs.Tables.{too_short};
ghost use Rattle.json_sheets.specs.Calls.{sheet_cases};

use recognition::looking::{Faults, look};
use residue::sizes;
use specification::refusals::Refusal;
use specification::settings::Settings;
use specification::tables::TablesRef;

// What refuses settings, lent lengths and a sheet; `short` is whether another lent buffer is too short.
pub(crate) fn judge(
    settings: Settings,
    n: u64,
    r: u64,
    tables: TablesRef<'_>,
    short: bool,
) -> Result<(), Refusal>
    ensures { refusal_of result ≡ first_of 0 (sheet_cases settings
        (short || too_short (lent tables.entry)) n r (lent tables.entry)) }
{
    let mut points = [0u8; sizes::STATES];
    let mut rows = [0u8; sizes::PIVOT_ROWS];
    let mut pivots = [0u8; sizes::POINTS];
    let faults = Faults {
        short,
        wrong: false,
        many: false,
    };
    look(
        settings,
        n,
        r,
        tables,
        faults,
        &[],
        &[],
        &mut points,
        &mut rows,
        &mut pivots,
    )
}
