// The text reader.
pub mod entries;
mod gathering;
pub mod records;

ghost use Rattle.std.specs.Prelude.{◌≡◌, ◌≤◌, length, drop, Ok};
ghost use Rattle.specification.specs.Refusal.{first_of};
ghost use Rattle.comma_text.specs.reading.Answers.{fault_of, read_of};
ghost use Rattle.comma_text.specs.reading.Text.{short_buffers, header_cases, not_refused, text_ended, read_outcome};
ghost use Rattle.comma_text.specs.reading.Records.{entries_at, counted_entries};
ghost use Rattle.comma_text.specs.reading.Points.{entries_outcome};

use crate::reading::records::HeaderAt;
use points::weights::right_weights;
use residue::{bytes, sizes};
use specification::refusals::{Fault, Refusal};
use specification::settings::Settings;

// The settings of a text and the number of its points.
#[derive(Clone, Copy, Debug, PartialEq, Eq)]
pub struct Read {
    pub modulus: u16,
    pub variables: u8,
    pub order: u8,
    pub n: u8,
}

// Whether a buffer lent for states, values, counts or weights, of these lengths, is too short.
#[tactic(auto, unfolding(crate::specs::reading::Text::short_buffers))]
fn short_buffers(states: usize, values: usize, counts: usize, weights: usize) -> bool
    ensures { result ≡ short_buffers states values counts weights }
{
    states < sizes::STATES || values < sizes::POINTS || counts < sizes::COUNTS || weights < 8
}

// A refusal of the header, which is record 1.
fn in_header(refusal: Refusal) -> Fault
    ensures { result ≡ record { refusal = refusal; at = 1 } }
{
    Fault { refusal, at: 1 }
}

// What the settings decide, and whether a lent buffer is too short.
#[tactic(auto, unfolding(crate::specs::reading::Answers::fault_of, crate::specs::reading::Text::header_cases, specification::specs::Answers::number_of, specification::specs::Refusal::first_of))]
pub fn check_settings(settings: Settings, short: bool) -> Result<(), Fault>
    ensures { fault_of result ≡ first_of not_refused (header_cases settings short) }
{
    if !residue::level::is_modulus(settings.modulus) {
        return Err(in_header(Refusal::Modulus));
    }
    if !(1..=8).contains(&settings.variables) {
        return Err(in_header(Refusal::Variables));
    }
    if !right_weights(settings) {
        return Err(in_header(Refusal::Weights));
    }
    if short {
        return Err(Fault {
            refusal: Refusal::ShortBuffer,
            at: 0,
        });
    }
    Ok(())
}

// The entries from `from` on, so many, under these settings. Every refusal is decided before a lent byte is written.
fn read_entries(
    text: &[u8],
    from: usize,
    settings: Settings,
    entries: usize,
    states: &mut [u8],
    values: &mut [u8],
    counts: &mut [u8],
    weights: &mut [u8],
) -> Result<Read, Fault>
    requires from_in_bounds { (from ≤ length text.now) × (length text.now ≤ 16384) }
    requires order_bound { (settings.order ≤ 3) × (length settings.weights ≡ 8) }
    requires text_value { counted_entries 0 (entries_at settings.variables (drop from text.now)) ≡ Ok entries }
    ensures { text_ended (read_of result) states.new values.new counts.new weights.new
        ≡ entries_outcome settings (drop from text.now) states.old values.old counts.old weights.old }
{
    let short = short_buffers(states.len(), values.len(), counts.len(), weights.len());
    check_settings(settings, short)?;
    let p = settings.modulus as u8;
    let mut rows = [0u8; sizes::STATES];
    let mut times = [0u8; sizes::COUNTS];
    let mut residues = [0u8; sizes::POINTS];
    let n = gathering::gather_entries(
        text,
        from,
        p,
        settings.variables as usize,
        entries,
        &mut rows,
        &mut times,
        &mut residues,
    )?;
    bytes::copy(&rows, states);
    bytes::copy(&residues, values);
    bytes::copy(&times, counts);
    let said = settings.weights;
    bytes::copy(&said, weights);
    Ok(Read {
        modulus: p as u16,
        variables: settings.variables as u8,
        order: settings.order as u8,
        n,
    })
}

// The settings of a text and the number of its distinct points; the points, the values of their first records, their counts and the settings' weights into the
// lent buffers.
pub fn read_text(
    text: &[u8],
    states: &mut [u8],
    values: &mut [u8],
    counts: &mut [u8],
    weights: &mut [u8],
) -> Result<Read, Fault>
    ensures { text_ended (read_of result) states.new values.new counts.new weights.new
        ≡ read_outcome text.now states.old values.old counts.old weights.old }
{
    if 16384 < text.len() {
        return Err(Fault {
            refusal: Refusal::LongText,
            at: 0,
        });
    }
    let mut said = [0u8; 8];
    let Some(
        HeaderAt {
            modulus,
            variables,
            order,
            next,
        },
    ) = records::read_header(text, &mut said)
    else {
        return Err(in_header(Refusal::Form));
    };
    let n = records::check_entries(text, next, variables)?;
    let settings = Settings {
        modulus: modulus as u64,
        variables: variables as u64,
        order: order as u64,
        weights: said,
    };
    read_entries(text, next, settings, n, states, values, counts, weights)
}
