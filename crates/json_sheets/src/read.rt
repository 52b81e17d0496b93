// Reading a sheet from JSON. Every refusal is decided before a lent byte is written.
ghost use Rattle.std.specs.Prelude.{◌≡◌};
ghost use Rattle.specification.specs.Lent.{lent_mut, left_in};
ghost use Rattle.json_sheets.specs.Calls.{taken_of, received, read_outcome};

use crate::judging::judge;
use json_text::documents::read_document;
use residue::{bytes, sizes};
use specification::refusals::Refusal;
use specification::settings::Settings;
use specification::tables::{TablesMut, TablesRef};

// How many bytes a text has at most, and how many weights there are.
const TEXT: usize = 131072;

const WEIGHTS: usize = 8;

// What is answered of a sheet that was read: its settings but for the weights, the number of points and the number of rows.
#[derive(Clone, Copy, Debug, PartialEq, Eq)]
pub struct Archived {
    pub modulus: u8,
    pub variables: u8,
    pub order: u8,
    pub n: u8,
    pub r: u16,
}

// The sheet of a text into the lent tables, and the weights of its settings.
pub fn read_json(
    text: &[u8],
    tables: TablesMut<'_>,
    weights: &mut [u8],
) -> Result<Archived, Refusal>
    ensures { received (taken_of result) (left_in tables.exit) weights.new
        ≡ read_outcome text.now (lent_mut tables.entry) weights.old }
{
    if TEXT < text.len() {
        return Err(Refusal::LongText);
    }
    let mut states = [0u8; sizes::STATES];
    let mut standard = [0u8; sizes::STANDARD];
    let mut leads = [0u8; sizes::LEADS];
    let mut coefficients = [0u8; sizes::COEFFICIENTS];
    let mut counts = [0u8; sizes::COUNTS];
    let mut said = [0u8; WEIGHTS];
    let Some(shape) = read_document(
        text,
        &mut coefficients,
        &mut counts,
        &mut leads,
        &mut states,
        &mut standard,
        &mut said,
    ) else {
        return Err(Refusal::Json);
    };
    let new = TablesRef {
        states: &states,
        standard: &standard,
        leads: &leads,
        coefficients: &coefficients,
        counts: &counts,
    };
    let settings = Settings {
        modulus: shape.modulus as u64,
        variables: shape.variables as u64,
        order: shape.order as u64,
        weights: said,
    };
    let short = tables.read().too_short() | (weights.len() < WEIGHTS);
    judge(settings, shape.n as u64, shape.r as u64, new, short)?;
    bytes::copy(&states, tables.states);
    bytes::copy(&standard, tables.standard);
    bytes::copy(&leads, tables.leads);
    bytes::copy(&coefficients, tables.coefficients);
    bytes::copy(&counts, tables.counts);
    bytes::copy(&said, weights);
    Ok(Archived {
        modulus: shape.modulus,
        variables: shape.variables,
        order: shape.order,
        n: shape.n as u8,
        r: shape.r as u16,
    })
}
