// Sheets as JSON: written, and read back.
ghost use Rattle.std.specs.Prelude.{◌≡◌};
ghost use Rattle.specification.specs.Tables.{five_tables};
ghost use Rattle.json_sheets.specs.Calls.{write_outcome, read_outcome};
ghost use Rattle.misqafur.specs.Packing.{settings_given, left_list, packed_text, left_sheet, packed_sheet};

use crate::packing::{pack_taken, pack_written, settings_given};
use json_sheets::read::read_json;
use json_sheets::write::write_json;
use specification::tables::{TablesMut, TablesRef};

// The JSON text of a sheet at the front of the lent buffer, and its length.
#[unsafe(no_mangle)]
pub extern "C" fn misqafur_write_json(
    modulus: u64,
    variables: u64,
    order: u64,
    weights: u64,
    n: u64,
    r: u64,
    states: &[u8],
    standard: &[u8],
    leads: &[u8],
    coefficients: &[u8],
    counts: &[u8],
    out: &mut [u8],
) -> u32
    ensures { left_list result out.new
        ≡ packed_text (write_outcome (settings_given modulus variables order weights) n r
        (five_tables states.now standard.now leads.now coefficients.now counts.now)
        out.old) }
{
    let tables = TablesRef {
        states,
        standard,
        leads,
        coefficients,
        counts,
    };
    let settings = settings_given(modulus, variables, order, weights);
    pack_written(write_json(settings, n, r, tables, out))
}

// The sheet of a JSON text, its settings' weights and its tables into the lent buffers.
#[unsafe(no_mangle)]
pub extern "C" fn misqafur_read_json(
    text: &[u8],
    states: &mut [u8],
    standard: &mut [u8],
    leads: &mut [u8],
    coefficients: &mut [u8],
    counts: &mut [u8],
    weights: &mut [u8],
) -> u64
    ensures { left_sheet result
        (five_tables states.new standard.new leads.new coefficients.new counts.new)
        weights.new
        ≡ packed_sheet (read_outcome text.now
        (five_tables states.old standard.old leads.old coefficients.old counts.old)
        weights.old) }
{
    let tables = TablesMut {
        states,
        standard,
        leads,
        coefficients,
        counts,
    };
    pack_taken(read_json(text, tables, weights))
}
