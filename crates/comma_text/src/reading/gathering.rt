// The distinct points of a text, with their counts and the values of their first records.
ghost use Rattle.std.specs.Prelude.{◌≡◌, cond, ◌||◌, [], ◌∷◌, suc, ◌<◌, ◌≤◌, eqb, length, get_or, set, drop, Ok};
ghost use Rattle.residue.specs.Sizes.{most_points, states_size, counts_size};
ghost use Rattle.residue.specs.Layout.{fill};
ghost use Rattle.specification.specs.Refusal.{first_of};
ghost use Rattle.comma_text.specs.reading.Answers.{gathered_of};
ghost use Rattle.comma_text.specs.reading.Text.{not_refused, entry_case};
ghost use Rattle.comma_text.specs.reading.Records.{entries_at, counted_entries};
ghost use Rattle.comma_text.specs.reading.Points.{levels_at, place_of, answered, GatheredAs};

use crate::reading::entries::fill_entry;
use points::gathering::{HINTS, enter};
use specification::refusals::{Fault, Refusal};

// The number of points, and whether the value is the one that is kept with its point.
#[derive(Drop)]
pub struct Kept {
    pub n: usize,
    pub same: bool,
}

// Keeps the value of a new point behind the n that are there, and compares the value of one that stands among them, at `at`.
fn keep_value(n: usize, at: usize, values: &mut [u8], value: u8) -> Kept
    requires { (at < 64) × (n ≤ 64) × (length values.old ≡ most_points) }
    ensures fact_1 { result.n ≡ cond (eqb at n) (suc n) n }
    ensures fact_2 { result.same ≡ (eqb at n || eqb (get_or values.old at 0) value) }
    ensures fact_3 { values.new ≡ cond (eqb at n) (set values.old at value) values.old }
{
    if at == n {
        values[at] = value;
        return Kept {
            n: n + 1,
            same: true,
        };
    }
    Kept {
        n,
        same: values[at] == value,
    }
}

// A refusal at this entry, the first being 0; the header is record 1.
fn at_entry(refusal: Refusal, entry: usize) -> Fault
    requires { entry < 16384 }
    ensures { result ≡ record { refusal = refusal; at = suc (suc entry) } }
{
    Fault {
        refusal,
        at: entry as u16 + 2,
    }
}

// 8 before 13 before 14, by the first entries at which they were met.
#[tactic(auto, unfolding(crate::specs::reading::Answers::gathered_of, crate::specs::reading::Points::answered, crate::specs::reading::Points::place_of, specification::specs::Answers::number_of, specification::specs::Refusal::first_of))]
fn decided(
    n: usize,
    full: Option<usize>,
    often: Option<usize>,
    other: Option<usize>,
) -> Result<u8, Fault>
    requires { (n ≤ 64) × (place_of full ≤ 16384) × (place_of often ≤ 16384) × (place_of other ≤ 16384) }
    ensures { gathered_of result ≡ answered (first_of not_refused
        (entry_case 8 (place_of full) ∷ entry_case 13 (place_of often) ∷ entry_case 14 (place_of other) ∷ [])) n }
{
    if let Some(entry) = full {
        return Err(at_entry(Refusal::TooMany, entry));
    }
    if let Some(entry) = often {
        return Err(at_entry(Refusal::TooOften, entry));
    }
    if let Some(entry) = other {
        return Err(at_entry(Refusal::OtherValue, entry));
    }
    Ok(n as u8)
}

// The distinct points of the entries from `at` on, in tables of zeros, with their counts and first values, or the refusal that comes first.
// The entries are read once: 9 anywhere in them comes before 8, 13 and 14, so those wait until all have been seen to be in range. Behind the 65th point nothing
// is entered any more.
pub fn gather_entries(
    text: &[u8],
    at: usize,
    p: u8,
    variables: usize,
    entries: usize,
    points: &mut [u8],
    counts: &mut [u8],
    values: &mut [u8],
) -> Result<u8, Fault>
    requires at_in_bounds { (at ≤ length text.now) × (1 ≤ variables) × (variables ≤ 8) × (entries ≤ 16384) × (p ≤ 128) }
    requires text_value { counted_entries 0 (entries_at variables (drop at text.now)) ≡ Ok entries }
    requires points_value { (points.old ≡ fill states_size []) × (counts.old ≡ fill counts_size []) × (values.old ≡ fill most_points []) }
    ensures { GatheredAs p variables (levels_at variables (drop at text.now)) (gathered_of result)
        points.new counts.new values.new }
{
    let mut hints = [0u8; HINTS];
    let mut from = at;
    let mut n = 0;
    let mut full = None;
    let mut often = None;
    let mut other = None;
    for i in 0..entries {
        let mut point = [0u8; 8];
        let entry = fill_entry(text, from, p, variables, &mut point);
        if !entry.inside {
            return Err(at_entry(Refusal::OutOfRange, i));
        }
        from = entry.next;
        if full.is_some() {
            continue;
        }
        let met = enter(n, points, counts, &mut hints, &point, entry.key);
        if met.at == 64 {
            full = Some(i);
            continue;
        }
        let kept = keep_value(n, met.at, values, entry.value);
        // Later entries must not hide an earlier one.
        often = often.or(met.over.then_some(i));
        other = other.or((!kept.same).then_some(i));
        n = kept.n;
    }
    decided(n, full, often, other)
}
