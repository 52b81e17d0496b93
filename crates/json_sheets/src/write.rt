// Writing a sheet as JSON. Every refusal is decided before a lent byte is written.
ghost use Rattle.std.specs.Prelude.{◌≡◌};
ghost use Rattle.specification.specs.Lent.{lent};
ghost use Rattle.json_sheets.specs.Calls.{written_of, wrote, write_outcome};

use crate::judging::judge;
use json_text::document_text::put_document;
use json_text::documents::{Lists, Shape};
use specification::refusals::Refusal;
use specification::settings::Settings;
use specification::tables::TablesRef;

// How many bytes the buffer has that is lent for a text.
const TEXT: usize = 131072;

// The text of a sheet at the front of the lent buffer, and its length.
pub fn write_json(
    settings: Settings,
    n: u64,
    r: u64,
    tables: TablesRef<'_>,
    out: &mut [u8],
) -> Result<u32, Refusal>
    ensures { wrote (written_of result) out.new ≡ write_outcome settings n r (lent tables.entry) out.old }
{
    judge(settings, n, r, tables, out.len() < TEXT)?;
    let shape = Shape {
        modulus: settings.modulus as u8,
        variables: settings.variables as u8,
        order: settings.order as u8,
        n: n as usize,
        r: r as usize,
    };
    let lists = Lists {
        coefficients: tables.coefficients,
        counts: tables.counts,
        leads: tables.leads,
        points: tables.states,
        standard: tables.standard,
        weights: &settings.weights,
    };
    let count = put_document(out, shape, lists);
    Ok(count as u32)
}
