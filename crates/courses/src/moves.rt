// The moves of records: the distinct states that have a successor, how often each has one, and a record where it has.
ghost use Rattle.std.specs.Prelude.{◌≡◌, unwrap_or, IfSome, cond, ◌&&◌, ◌||◌, List, [], ℕ, suc, ◌+◌, ◌*◌, ◌<◌, ◌≤◌, eqb, length, get_or, set, take, replicate, Err};
ghost use Rattle.residue.specs.Sizes.{most_points, states_size, counts_size};
ghost use Rattle.residue.specs.Lists.{same_list};
ghost use Rattle.residue.specs.Layout.{row_at};
ghost use Rattle.courses.specs.TimeCourse.{Timed, moves_of, first_move, other_next};
ghost use Rattle.courses.specs.Records.{most_records, records_size, HeldIn};
ghost use Rattle.courses.specs.Moves.{has_next, move_at, moves_before, next_in, other_in, gathered_of, some_record, many_answer, MovesGathered, place_of_course};

use points::gathering::{HINTS, enter};
use points::places::key;
use specification::refusals::{Fault, Refusal};

// Whether record i has a successor: there is a next one, of its course.
fn has_next(i: usize, count: usize, numbers: &[u8]) -> bool
    requires { (i < count) × (count ≤ length numbers.now) }
    ensures { result ≡ next_in i count numbers.now }
{
    let next = i + 1;
    if next == count {
        return false;
    }
    numbers[i] == numbers[next]
}

// Whether two records have the same state.
fn same_state(i: usize, j: usize, records: &[u8]) -> bool
    requires { (8 * i + 8 ≤ length records.now) × (8 * j + 8 ≤ length records.now) }
    ensures { result ≡ same_list (row_at 8 i records.now) (row_at 8 j records.now) }
{
    let a = 8 * i;
    let b = 8 * j;
    key(&records[a..a + 8]) == key(&records[b..b + 8])
}

// Whether record j has the state of record i and another successor.
fn is_other(i: usize, j: usize, count: usize, records: &[u8], numbers: &[u8]) -> bool
    requires { (i + 1 < count) × (j < i) × (count ≤ length numbers.now) × (8 * count ≤ length records.now) }
    ensures { result ≡ other_in i j count records.now numbers.now }
{
    if !has_next(j, count, numbers) {
        return false;
    }
    if !same_state(j, i, records) {
        return false;
    }
    !same_state(j + 1, i + 1, records)
}

// Whether record i has a successor, and an earlier record of its state has another.
fn has_other(i: usize, count: usize, records: &[u8], numbers: &[u8]) -> bool
    requires { (i < count) × (count ≤ length numbers.now) × (8 * count ≤ length records.now) }
    ensures { (m : ℕ) (l : List Timed) → HeldIn m l records.now numbers.now → length l ≡ count
        → result ≡ (has_next i l && other_next (moves_before i l) (move_at i l)) }
{
    if !has_next(i, count, numbers) {
        return false;
    }
    for j in 0..i {
        if is_other(i, j, count, records, numbers) {
            return true;
        }
    }
    false
}

// The first record of the text at which a state stands with another successor than before. It compares each record with all before it, and is asked only
// where there are more than 64 points.
fn first_other(count: usize, records: &[u8], numbers: &[u8]) -> Option<u16>
    requires { (count ≤ most_records) × (count ≤ length numbers.now) × (8 * count ≤ length records.now) }
    ensures { (m : ℕ) (l : List Timed) → HeldIn m l records.now numbers.now → length l ≡ count
        → result ≡ some_record (first_move other_next [] (moves_of l)) }
{
    for i in 0..count {
        if has_other(i, count, records, numbers) {
            return Some(i as u16 + 2);
        }
    }
    None
}

// The number of points, and whether the successor is the one that is kept with its point.
#[derive(Drop)]
pub struct Kept {
    pub n: usize,
    pub same: bool,
}

// Keeps record i with a new point, behind the n that are there, and compares its successor with that of a point that stands among them, at `at`.
fn keep_first(n: usize, at: usize, i: usize, records: &[u8], firsts: &mut [u16]) -> Kept
    requires at_bound { (at < 64) × (at ≤ n) × (n ≤ 64) × (i + 1 < most_records) × (length firsts.old ≡ most_points) }
    requires records_len { (length records.now ≡ records_size) × (at < n → suc (get_or firsts.old at 0) < most_records) }
    ensures fact_1 { result.n ≡ cond (eqb at n) (suc n) n }
    ensures fact_2 { result.same
        ≡ (eqb at n || same_list (row_at 8 (suc (get_or firsts.old at 0)) records.now) (row_at 8 (suc i) records.now)) }
    ensures fact_3 { firsts.new ≡ cond (eqb at n) (set firsts.old at i) firsts.old }
{
    if at == n {
        firsts[at] = i as u16;
        return Kept {
            n: n + 1,
            same: true,
        };
    }
    let first = firsts[at] as usize;
    Kept {
        n,
        same: same_state(first + 1, i + 1, records),
    }
}

// The record found so far, or record i of the list if nothing was found and this one has a fault.
fn first_record(found: u16, fault: bool, i: usize) -> u16
    requires { i < most_records }
    ensures { result ≡ cond (eqb found 0 && fault) (i + 2) found }
{
    if found != 0 {
        return found;
    }
    if fault {
        return i as u16 + 2;
    }
    0
}

// A refusal at record i of the list; the header is record 1.
fn at_record(refusal: Refusal, i: usize) -> Fault
    requires { i < most_records }
    ensures { result ≡ record { refusal = refusal; at = i + 2 } }
{
    Fault {
        refusal,
        at: i as u16 + 2,
    }
}

// Record i of the list would be the 65th point: 8, unless a state stands with another successor anywhere.
fn too_many(count: usize, i: usize, records: &[u8], numbers: &[u8]) -> Fault
    requires { (i < count) × (count ≤ most_records) × (count ≤ length numbers.now) × (8 * count ≤ length records.now) }
    ensures { (m : ℕ) (l : List Timed) → HeldIn m l records.now numbers.now → length l ≡ count
        → gathered_of (Err result) ≡ many_answer (first_move other_next [] (moves_of l)) i }
{
    match first_other(count, records, numbers) {
        Some(at) => Fault {
            refusal: Refusal::OtherSuccessor,
            at,
        },
        None => at_record(Refusal::TooMany, i),
    }
}

// The distinct states with a successor of records, in tables of zeros, with their counts and a record for each, or the refusal that comes first. A state that
// stands with another successor is met at the first such record, unless the 65th point comes before it; 13 waits until all records have been seen.
pub fn gather_moves(
    count: usize,
    records: &[u8],
    numbers: &[u8],
    points: &mut [u8],
    counts: &mut [u8],
    firsts: &mut [u16],
) -> Result<usize, Fault>
    requires count_le_most_records { (count ≤ most_records) × (length records.now ≡ records_size) × (length numbers.now ≡ most_records) }
    requires points_value { (points.old ≡ replicate states_size 0) × (counts.old ≡ replicate counts_size 0) × (length firsts.old ≡ most_points) }
    ensures { (m : ℕ) (l : List Timed) → HeldIn m l records.now numbers.now → length l ≡ count
        → MovesGathered l records.now (gathered_of result) points.new counts.new firsts.new }
{
    let mut hints = [0u8; HINTS];
    let mut n = 0;
    let mut often = 0;
    for i in 0..count {
        if !has_next(i, count, numbers) {
            continue;
        }
        let from = 8 * i;
        let state = &records[from..from + 8];
        let met = enter(n, points, counts, &mut hints, state, key(state));
        if met.at == 64 {
            return Err(too_many(count, i, records, numbers));
        }
        let kept = keep_first(n, met.at, i, records, firsts);
        if !kept.same {
            return Err(at_record(Refusal::OtherSuccessor, i));
        }
        often = first_record(often, met.over, i);
        n = kept.n;
    }
    if often != 0 {
        return Err(Fault {
            refusal: Refusal::TooOften,
            at: often,
        });
    }
    Ok(n)
}

// Where the first record of a course stands, if one has its number.
pub fn first_of_course(count: usize, numbers: &[u8], course: u64) -> Option<usize>
    requires { count ≤ length numbers.now }
    ensures within { IfSome result (λ i. i < count) }
    ensures place { unwrap_or result count ≡ place_of_course course (take count numbers.now) }
{
    numbers[..count]
        .iter()
        .position(|number| u64::from(*number) == course)
}
