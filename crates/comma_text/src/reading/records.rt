// The records of a text: the header, and behind it the entries, each of m levels and one value.
ghost use Rattle.std.specs.Prelude.{◌≡◌, ◌<◌, ◌≤◌, length, drop, replicate};
ghost use Rattle.notation.specs.Forms.{level_of};
ghost use Rattle.comma_text.specs.reading.Records.{reading, field_from, size_field, level_at_said, LevelWithin, LevelRead};
ghost use Rattle.comma_text.specs.reading.Records.{HeaderRead, EntryRead, fault_of_record, entries_at, counted_entries};

use notation::fields::{End, Span};
use notation::forms::Settings;
use notation::{digits, fields, forms};
use specification::refusals::{Fault, Refusal};

// A level or value: its sign and size, whether another field of its record follows, and where the text goes on.
#[derive(Clone, Copy)]
pub struct LevelAt {
    pub negative: bool,
    pub size: u16,
    pub more: bool,
    pub next: usize,
}

// The level or value whose digits begin at `at`, behind its quote and its sign if it has them.
#[inline(always)]
fn sized_level(text: &[u8], at: usize, quotes: bool, negative: bool) -> Option<LevelAt>
    requires { at ≤ length text.now }
    ensures fact_1 { level_at_said text.now result ≡ size_field quotes negative (drop at text.now) }
    ensures fact_2 { LevelWithin (length text.now) result }
{
    let number = digits::read_leading(&text[at..])?;
    let End { more, next } = fields::content_end(text, at + number.count, quotes)?;
    Some(LevelAt {
        negative,
        size: number.size,
        more,
        next,
    })
}

// The level or value whose content begins at `at`, behind its quote if it has one.
#[inline(always)]
fn signed_level(text: &[u8], at: usize, quotes: bool) -> Option<LevelAt>
    requires { at ≤ length text.now }
    ensures fact_1 { level_at_said text.now result ≡ reading level_of (field_from quotes (drop at text.now)) }
    ensures fact_2 { LevelWithin (length text.now) result }
{
    if let [b'-', ..] = &text[at..] {
        return sized_level(text, at + 1, quotes, true);
    }
    sized_level(text, at, quotes, false)
}

// The level or value in the field at `at`, with quotes or without. Its bytes are gone through once.
#[inline(always)]
pub fn level_at(text: &[u8], at: usize) -> Option<LevelAt>
    requires { at ≤ length text.now }
    ensures { LevelRead text.now at result }
{
    if let [b'"', ..] = &text[at..] {
        return signed_level(text, at + 1, true);
    }
    signed_level(text, at, false)
}

// What a header says, without the weights of its order, and where the text goes on.
#[derive(Clone, Copy)]
pub struct HeaderAt {
    pub modulus: u16,
    pub variables: usize,
    pub order: u8,
    pub next: usize,
}

// The header of a text; its weights into eight zeros.
pub fn read_header(text: &[u8], weights: &mut [u8]) -> Option<HeaderAt>
    requires { weights.old ≡ replicate 8 0 }
    ensures { HeaderRead text.now weights.new result }
{
    let mut at = 0;
    let mut variables = 0;
    loop {
        let Span {
            from,
            to,
            more,
            next,
        } = fields::read_field(text, at)?;
        if !more {
            let Settings { modulus, order } = forms::read_last(
                &text[from..to],
                variables,
                weights,
            )?;
            return Some(HeaderAt {
                modulus,
                variables,
                order,
                next,
            });
        }
        variables += 1;
        at = next;
    }
}

// An entry: the level in its last column, by its sign and size, and where it ends.
#[derive(Clone, Copy)]
pub struct Entry {
    pub negative: bool,
    pub size: u16,
    pub next: usize,
}

// A record that breaks the form: its refusal, and its number, whatever that is.
#[derive(Clone, Copy, Debug, PartialEq, Eq)]
pub struct Broken {
    pub refusal: Refusal,
    pub at: usize,
}

// The record at `at`, whose number is `record`, as an entry of so many variables, if it is one.
pub fn check_entry(text: &[u8], at: usize, variables: usize, record: usize) -> Result<Entry, Broken>
    requires { at ≤ length text.now }
    ensures { EntryRead text.now at variables «record» result }
{
    let broken = Broken {
        refusal: Refusal::Form,
        at: record,
    };
    let mut from = at;
    for _ in 0..variables {
        let Some(level) = level_at(text, from) else {
            return Err(broken);
        };
        if !level.more {
            return Err(broken);
        }
        from = level.next;
    }
    let Some(last) = level_at(text, from) else {
        return Err(broken);
    };
    if last.more {
        return Err(broken);
    }
    Ok(Entry {
        negative: last.negative,
        size: last.size,
        next: last.next,
    })
}

// The fault of a record of a text, whose number fits.
pub fn fault_of_record(broken: Broken) -> Fault
    requires { broken.at < 65536 }
    ensures { result ≡ fault_of_record broken }
{
    Fault {
        refusal: broken.refusal,
        at: broken.at as u16,
    }
}

// How many records there are from `at` on, behind the header, if all are entries of so many variables.
pub fn check_entries(text: &[u8], at: usize, variables: usize) -> Result<usize, Fault>
    requires { (at ≤ length text.now) × (length text.now ≤ 16384) }
    ensures { result ≡ counted_entries 0 (entries_at variables (drop at text.now)) }
{
    let mut from = at;
    let mut n = 0;
    while from < text.len() {
        // Each entry takes a byte of the text, so that the number of its record fits.
        match check_entry(text, from, variables, n + 2) {
            Ok(entry) => from = entry.next,
            Err(broken) => return Err(fault_of_record(broken)),
        }
        n += 1;
    }
    Ok(n)
}
