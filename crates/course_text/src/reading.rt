// The records of a time course's text: their form, and their states and course numbers in tables.
ghost use Rattle.std.specs.Prelude.{◌≡◌, not, ◌&&◌, ◌||◌, [], ◌<◌, ◌≤◌, eqb, length, get_or, drop, Ok};
ghost use Rattle.residue.specs.Layout.{fill, over};
ghost use Rattle.notation.specs.Fields.{faulty};
ghost use Rattle.notation.specs.Said.{with_sign};
ghost use Rattle.comma_text.specs.reading.Records.{entry_part, entries_at, counted_entries};
ghost use Rattle.comma_text.specs.reading.Points.{levels_in, levels_at};
ghost use Rattle.comma_text.specs.reading.Text.{entry_point};
ghost use Rattle.courses.specs.Records.{most_records, records_size};
ghost use Rattle.course_text.specs.Form.{course_in};
ghost use Rattle.course_text.specs.Reading.{counted_courses, TimedAs, ReadAs};

use comma_text::reading::entries::fill_point;
use comma_text::reading::records::{check_entry, fault_of_record, level_at};
use specification::refusals::{Fault, Refusal};

// The course number that the last column's level is, 0 where it is none.
fn course_number(negative: bool, size: u16) -> u8
    ensures { result ≡ course_in (with_sign negative size) }
{
    if negative {
        return 0;
    }
    if 99 < size {
        return 0;
    }
    size as u8
}

// Whether a number is no course's, or was marked and is not the latest.
fn wrong_number(number: u8, latest: u8, marks: &[u8]) -> bool
    requires { (number < 100) × (length marks.now ≡ 100) }
    ensures { result ≡ (eqb number 0 || (not (eqb (get_or marks.now number 0) 0) && not (eqb number latest))) }
{
    if number == 0 {
        return true;
    }
    if marks[number as usize] == 0 {
        return false;
    }
    number != latest
}

// Whether all records from `at` on, behind the header, are entries of so many variables whose numbers are courses' and stand in runs, and how many there are.
pub fn check_courses(text: &[u8], at: usize, variables: usize) -> Result<usize, Fault>
    requires { (at ≤ length text.now) × (length text.now ≤ 16384) }
    ensures { result ≡ counted_courses variables [] (entries_at variables (drop at text.now)) }
{
    let mut marks = [0u8; 100];
    let mut latest = 0;
    let mut from = at;
    let mut n = 0;
    while from < text.len() {
        // Each record takes a byte of the text, so that its number fits.
        let record = n + 2;
        let entry = match check_entry(text, from, variables, record) {
            Ok(entry) => entry,
            Err(broken) => return Err(fault_of_record(broken)),
        };
        let number = course_number(entry.negative, entry.size);
        if wrong_number(number, latest, &marks) {
            return Err(Fault {
                refusal: Refusal::Form,
                at: record as u16,
            });
        }
        marks[number as usize] = 1;
        latest = number;
        from = entry.next;
        n += 1;
    }
    Ok(n)
}

// Whether the levels of a record are in range, its course number, and where it ends.
#[derive(Drop)]
pub struct Timed {
    pub inside: bool,
    pub number: u8,
    pub next: usize,
}

// The record at `at`, its state into a row of 8 bytes.
fn read_record(text: &[u8], at: usize, p: u8, variables: usize, row: &mut [u8]) -> Timed
    requires at_in_bounds { (at ≤ length text.now) × (variables ≤ length row.old) × (1 ≤ variables) × (variables ≤ 8) × (p ≤ 128) }
    requires fact { entry_part variables (drop at text.now) ≡ faulty → ⊥ }
    ensures fact_1 { TimedAs p variables text.now (entry_part variables (drop at text.now)) result }
    ensures fact_2 { row.new ≡ over (entry_point p variables (levels_in (entry_part variables (drop at text.now)))) row.old }
{
    let point = fill_point(text, at, p, variables, row);
    // The records have been checked.
    let level = level_at(text, point.next).unwrap();
    Timed {
        inside: point.inside,
        number: course_number(level.negative, level.size),
        next: level.next,
    }
}

// The states and the course numbers of the records from `at` on, so many, into two tables of zeros; or the first record, from 0, that has a level
// out of range.
pub fn read_records(
    text: &[u8],
    at: usize,
    p: u8,
    variables: usize,
    entries: usize,
    records: &mut [u8],
    numbers: &mut [u8],
) -> Result<(), usize>
    requires at_in_bounds { (at ≤ length text.now) × (length text.now ≤ 16384) × (1 ≤ variables) × (variables ≤ 8) × (p ≤ 128) }
    requires text_value { counted_entries 0 (entries_at variables (drop at text.now)) ≡ Ok entries }
    requires records_value { (records.old ≡ fill records_size []) × (numbers.old ≡ fill most_records []) }
    ensures { ReadAs p variables (levels_at variables (drop at text.now)) result records.new numbers.new }
{
    let mut from = at;
    for i in 0..entries {
        let place = 8 * i;
        let timed = read_record(text, from, p, variables, &mut records[place..place + 8]);
        if !timed.inside {
            return Err(i);
        }
        numbers[i] = timed.number;
        from = timed.next;
    }
    Ok(())
}
