// The remainder of a polynomial, from the basis of lent tables.
ghost use Rattle.std.specs.Prelude.{◌≡◌};
ghost use Rattle.specification.specs.Answers.{refusal_of};
ghost use Rattle.specification.specs.Lent.{lent};
ghost use Rattle.specification.specs.Solving.{answering, remainder_outcome};

use interpolation::solving;
use recognition::looking::{Faults, look};
use residue::sizes;
use specification::refusals::Refusal;
use specification::settings::Settings;
use specification::tables::TablesRef;

// The remainder of a polynomial, term after term a coefficient and 8 exponents.
pub fn remainder(
    settings: Settings,
    n: u64,
    r: u64,
    tables: TablesRef<'_>,
    term_coefficients: &[i8],
    exponents: &[u8],
    out: &mut [u8],
) -> Result<(), Refusal>
    ensures { answering (refusal_of result) out.new
        ≡ remainder_outcome settings n r (lent tables.entry)
        term_coefficients.now exponents.now out.old }
{
    let mut points = [0u8; sizes::STATES];
    let mut rows = [0u8; sizes::PIVOT_ROWS];
    let mut pivots = [0u8; sizes::POINTS];
    let terms = term_coefficients.len();
    let whole = exponents.len() / 8 == terms && exponents.len() % 8 == 0;
    let faults = Faults {
        short: out.len() < 64,
        wrong: !whole,
        many: 256 < terms,
    };
    look(
        settings,
        n,
        r,
        tables,
        faults,
        term_coefficients,
        exponents,
        &mut points,
        &mut rows,
        &mut pivots,
    )?;
    solving::solve_terms(
        settings.modulus as u8,
        term_coefficients,
        exponents,
        n as usize,
        &points,
        &rows,
        &pivots,
        out,
    );
    Ok(())
}
