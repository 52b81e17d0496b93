// The points and values of a text whose records are entries.
ghost use Rattle.std.specs.Prelude.{◌≡◌, ◌≤◌, length, drop};
ghost use Rattle.residue.specs.Level.{residue_of};
ghost use Rattle.residue.specs.Layout.{over};
ghost use Rattle.notation.specs.Fields.{broken, faulty};
ghost use Rattle.notation.specs.Said.{with_sign};
ghost use Rattle.comma_text.specs.reading.Text.{entry_point};
ghost use Rattle.comma_text.specs.reading.Records.{level_field, entry_part};
ghost use Rattle.comma_text.specs.reading.Points.{PlacedAs, levels_in, PointAs, FilledAs};

use crate::reading::records;
use residue::level;

// The residue of a level by its sign and size. A size that fits no signed byte is out of range like any other.
#[inline(always)]
fn residue_of(p: u8, negative: bool, size: u16) -> Option<u8>
    requires { p ≤ 128 }
    ensures { result ≡ residue_of p (with_sign negative size) }
{
    if 127 < size {
        return None;
    }
    let level = size as i8;
    if negative {
        return level::residue(p, -level);
    }
    level::residue(p, level)
}

// A level's residue, none where it is out of range, and where the text goes on.
#[derive(Clone, Copy)]
pub struct Placed {
    pub residue: Option<u8>,
    pub next: usize,
}

// The residue of the level in the field at `at`.
#[inline(always)]
fn residue_at(text: &[u8], at: usize, p: u8) -> Placed
    requires at_in_bounds { (at ≤ length text.now) × (p ≤ 128) }
    requires fact { level_field (drop at text.now) ≡ broken → ⊥ }
    ensures { PlacedAs p text.now (level_field (drop at text.now)) result }
{
    // The records have been checked.
    let level = records::level_at(text, at).unwrap();
    Placed {
        residue: residue_of(p, level.negative, level.size),
        next: level.next,
    }
}

// Whether the levels of a point are in range, its key, a level out of range counting as 0, and where its value begins.
#[derive(Clone, Copy)]
pub struct Point {
    pub inside: bool,
    pub key: u64,
    pub next: usize,
}

// The point of the entry at `at`, with its key in 8 bytes, which end in zeros, and where the last column begins.
#[inline(always)]
pub fn fill_point(text: &[u8], at: usize, p: u8, variables: usize, row: &mut [u8]) -> Point
    requires at_in_bounds { (at ≤ length text.now) × (variables ≤ length row.old) × (1 ≤ variables) × (variables ≤ 8) × (p ≤ 128) }
    requires fact { entry_part variables (drop at text.now) ≡ faulty → ⊥ }
    ensures fact_1 { PointAs p variables text.now (entry_part variables (drop at text.now)) result row.new }
    ensures fact_2 { row.new ≡ over (entry_point p variables (levels_in (entry_part variables (drop at text.now)))) row.old }
{
    let mut from = at;
    let mut inside = true;
    let mut key = 0u64;
    for j in 0..variables {
        let level = residue_at(text, from, p);
        let residue = level.residue.unwrap_or(0);
        row[j] = residue;
        key = 256 * key + u64::from(residue);
        inside &= level.residue.is_some();
        from = level.next;
    }
    let zeros = 64 - 8 * variables;
    let spelled = key << zeros;
    Point {
        inside,
        key: spelled,
        next: from,
    }
}

// The same of an entry, with its value.
#[derive(Clone, Copy)]
pub struct Filled {
    pub inside: bool,
    pub value: u8,
    pub key: u64,
    pub next: usize,
}

// The point and the value of the entry at `at`, and the key of the point.
pub fn fill_entry(text: &[u8], at: usize, p: u8, variables: usize, row: &mut [u8]) -> Filled
    requires at_in_bounds { (at ≤ length text.now) × (variables ≤ length row.old) × (1 ≤ variables) × (variables ≤ 8) × (p ≤ 128) }
    requires fact { entry_part variables (drop at text.now) ≡ faulty → ⊥ }
    ensures fact_1 { FilledAs p variables text.now (entry_part variables (drop at text.now)) result row.new }
    ensures fact_2 { row.new ≡ over (entry_point p variables (levels_in (entry_part variables (drop at text.now)))) row.old }
{
    let point = fill_point(text, at, p, variables, row);
    let last = residue_at(text, point.next, p);
    Filled {
        inside: point.inside & last.residue.is_some(),
        value: last.residue.unwrap_or(0),
        key: point.key,
        next: last.next,
    }
}
