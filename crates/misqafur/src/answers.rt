// The calls that answer from the basis of lent tables: interpolant, remainder, wiring list.
ghost use Rattle.std.specs.Prelude.{◌≡◌};
ghost use Rattle.specification.specs.Tables.{five_tables};
ghost use Rattle.specification.specs.Solving.{answering, interpolate_outcome, remainder_outcome, wiring_outcome};
ghost use Rattle.misqafur.specs.Packing.{settings_given, left_list, packed_list};

use crate::packing::{pack_refusal, pack_wired, settings_given};
use queries::remainders::remainder;
use queries::values::{interpolate, wiring};
use specification::tables::TablesRef;

// The interpolant of n values, in the order of the points.
#[unsafe(no_mangle)]
pub extern "C" fn misqafur_interpolate(
    modulus: u64,
    variables: u64,
    order: u64,
    weights: u64,
    n: u64,
    r: u64,
    states: &[u8],
    standard: &[u8],
    leads: &[u8],
    coefficients: &[u8],
    counts: &[u8],
    values: &[i8],
    out: &mut [u8],
) -> u32
    ensures { answering result out.new
        ≡ interpolate_outcome (settings_given modulus variables order weights) n r
        (five_tables states.now standard.now leads.now coefficients.now counts.now)
        values.now out.old }
{
    let tables = TablesRef {
        states,
        standard,
        leads,
        coefficients,
        counts,
    };
    let settings = settings_given(modulus, variables, order, weights);
    pack_refusal(interpolate(settings, n, r, tables, values, out))
}

// The remainder of a polynomial, term after term a coefficient and 8 exponents.
#[unsafe(no_mangle)]
pub extern "C" fn misqafur_remainder(
    modulus: u64,
    variables: u64,
    order: u64,
    weights: u64,
    n: u64,
    r: u64,
    states: &[u8],
    standard: &[u8],
    leads: &[u8],
    coefficients: &[u8],
    counts: &[u8],
    term_coefficients: &[i8],
    exponents: &[u8],
    out: &mut [u8],
) -> u32
    ensures { answering result out.new
        ≡ remainder_outcome (settings_given modulus variables order weights) n r
        (five_tables states.now standard.now leads.now coefficients.now counts.now)
        term_coefficients.now exponents.now out.old }
{
    let tables = TablesRef {
        states,
        standard,
        leads,
        coefficients,
        counts,
    };
    let settings = settings_given(modulus, variables, order, weights);
    pack_refusal(remainder(settings, n, r, tables, term_coefficients, exponents, out))
}

// The wiring list: on which variables every function depends that has these n values at the points.
#[unsafe(no_mangle)]
pub extern "C" fn misqafur_wiring(
    modulus: u64,
    variables: u64,
    order: u64,
    weights: u64,
    n: u64,
    r: u64,
    states: &[u8],
    standard: &[u8],
    leads: &[u8],
    coefficients: &[u8],
    counts: &[u8],
    values: &[i8],
    out: &mut [u8],
) -> u32
    ensures { left_list result out.new
        ≡ packed_list (wiring_outcome (settings_given modulus variables order weights) n r
        (five_tables states.now standard.now leads.now coefficients.now counts.now)
        values.now out.old) }
{
    let tables = TablesRef {
        states,
        standard,
        leads,
        coefficients,
        counts,
    };
    let settings = settings_given(modulus, variables, order, weights);
    pack_wired(wiring(settings, n, r, tables, values, out))
}
