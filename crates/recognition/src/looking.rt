// The look at lent tables with which a call begins that is lent them: what refuses it up to 10.
ghost use Rattle.std.specs.Prelude.{◌≡◌, ◌/◌, ◌≤◌, length, drop, replicate};
ghost use Rattle.residue.specs.Sizes.{states_size};
ghost use Rattle.residue.specs.Lists.{all_zero};
ghost use Rattle.residue.specs.Layout.{groups};
ghost use Rattle.specification.specs.Answers.{refusal_of};
ghost use Rattle.specification.specs.Lent.{lent};
ghost use Rattle.specification.specs.Refusal.{first_of};
ghost use Rattle.specification.specs.Solving.{within_variables};
ghost use Rattle.construction.specs.Drawing.{RowsLong};
ghost use Rattle.recognition.specs.Looking.{look_cases, Looked};

use crate::recognising::recognise;
use crate::settings::by_sizes;
use points::levels::in_range;
use residue::bytes;
use specification::refusals::Refusal;
use specification::settings::Settings;
use specification::tables::TablesRef;

// What a call finds in the lengths of what it is lent besides the tables: another buffer is too short (6), a length is wrong (7), there are too many terms (8).
#[derive(Clone, Copy)]
pub struct Faults {
    pub short: bool,
    pub wrong: bool,
    pub many: bool,
}

// Whether no variable above m occurs in a term: their exponents are 0.
fn is_within(m: usize, term: &[u8]) -> bool
    requires { m ≤ length term.now }
    ensures { result ≡ all_zero (drop m term.now) }
{
    bytes::all_zero(&term[m..])
}

// Whether none occurs in the terms of a polynomial, 8 exponents each.
fn within_variables(m: usize, exponents: &[u8]) -> bool
    requires { m ≤ 8 }
    ensures { result ≡ within_variables m (groups 8 (length exponents.now / 8) exponents.now) }
{
    exponents.chunks_exact(8).all(|term| is_within(m, term))
}

// What refuses a call up to 10. The numbers and exponents are those that it is handed, of points, values or a polynomial; a call without any hands over
// empty slices. Where the tables are judged, their points and pivot rows are left in working arrays.
pub fn look(
    settings: Settings,
    n: u64,
    r: u64,
    tables: TablesRef<'_>,
    faults: Faults,
    numbers: &[i8],
    exponents: &[u8],
    points: &mut [u8],
    rows: &mut [u8],
    pivots: &mut [u8],
) -> Result<(), Refusal>
    requires { (points.old ≡ replicate states_size 0) × RowsLong rows.old pivots.old }
    ensures value { refusal_of result ≡ first_of 0 (look_cases settings n r (lent tables.entry) faults numbers.now exponents.now) }
    ensures looked { Looked settings n tables.entry.states.now (refusal_of result) points.old rows.old pivots.old
        points.new rows.new pivots.new }
{
    by_sizes(
        settings,
        faults.short || tables.too_short(),
        faults.wrong,
        faults.many || 64 < n,
    )?;
    let inside = within_variables(settings.variables as usize, exponents)
        && in_range(settings.modulus as u8, numbers);
    if !inside {
        return Err(Refusal::OutOfRange);
    }
    if !recognise(settings, n as usize, r, tables, points, rows, pivots) {
        return Err(Refusal::NoBasis);
    }
    Ok(())
}
