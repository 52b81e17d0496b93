// Running a time course forward. Every refusal is decided before a lent byte is written.
ghost use Rattle.std.specs.Prelude.{◌≡◌, false, ◌||◌, List, [], ℕ, ◌+◌, ◌*◌, ◌<◌, ◌≤◌, Ok, length, get_or, drop, replicate};
ghost use Rattle.residue.specs.Sizes.{states_size, counts_size, most_points};
ghost use Rattle.residue.specs.Vector.{Below};
ghost use Rattle.specification.specs.Lent.{lent, lent_mut, left_in};
ghost use Rattle.specification.specs.Tables.{too_short};
ghost use Rattle.construction.specs.Drawing.{PointsGiven};
ghost use Rattle.comma_text.specs.reading.Records.{entries_at, counted_entries};
ghost use Rattle.courses.specs.TimeCourse.{Timed};
ghost use Rattle.courses.specs.Records.{most_records, records_size, HeldIn};
ghost use Rattle.forward.specs.Outcome.{short_for, course_answer, course_ended, course_outcome};
ghost use Rattle.forward.specs.Running.{decided_of, DecidedAs, CourseWritten, run_ended, run_outcome};

use basis::drawing::draw_points;
use comma_text::reading::check_settings;
use comma_text::reading::records::{HeaderAt, read_header};
use course_text::reading::{check_courses, read_records};
use courses::moves::{first_of_course, gather_moves};
use courses::returns::Return;
use residue::{bytes, sizes};
use specification::refusals::{Fault, Refusal};
use specification::settings::Settings;
use specification::tables::{TablesMut, TablesRef};
use steps::model::put_model;
use steps::run::run;

// How many bytes the interpolants take, 64 a variable, and the weights.
const GENES: usize = 512;

const WEIGHTS: usize = 8;

// How many records a text can have, and the bytes of their states.
const RECORDS: usize = 4096;

const RECORD_STATES: usize = 32768;

// The settings, the counts of the points' sheet, the step at which the run comes back to a state and how many steps ago that was met, 0 and 0 where it does not
// come back.
#[derive(Clone, Copy, Debug, PartialEq, Eq)]
pub struct Course {
    pub modulus: u16,
    pub variables: u8,
    pub order: u8,
    pub n: u8,
    pub r: u16,
    pub step: u16,
    pub back: u16,
}

// The number of points, and where the course's first record stands.
#[derive(Clone, Copy, Debug, PartialEq, Eq)]
pub struct Decided {
    pub n: usize,
    pub first: usize,
}

// What the records decide: 17, 8 and 13 by their moves, then 18. The points are left in tables of zeros with their counts, and for each a record that has its
// successor behind it.
fn decide(
    count: usize,
    records: &[u8],
    numbers: &[u8],
    course: u64,
    points: &mut [u8],
    times: &mut [u8],
    firsts: &mut [u16],
) -> Result<Decided, Fault>
    requires count_le_most_records { (count ≤ most_records) × (length records.now ≡ records_size) × (length numbers.now ≡ most_records) }
    requires points_value { (points.old ≡ replicate states_size 0) × (times.old ≡ replicate counts_size 0) × (length firsts.old ≡ most_points) }
    ensures { (m : ℕ) (l : List Timed) → HeldIn m l records.now numbers.now → length l ≡ count
        → DecidedAs course l records.now (decided_of result) points.new times.new firsts.new }
{
    let n = gather_moves(count, records, numbers, points, times, firsts)?;
    if let Some(first) = first_of_course(count, numbers, course) {
        return Ok(Decided { n, first });
    }
    Err(Fault {
        refusal: Refusal::NoCourse,
        at: 0,
    })
}

// The basis of n points with their counts, the interpolants of their successors, which stand behind the records that `firsts` names, and the run from the
// state of record `first`.
fn write_course(
    settings: Settings,
    n: usize,
    first: usize,
    records: &[u8],
    firsts: &[u16],
    points: &[u8],
    times: &[u8],
    tables: TablesMut<'_>,
    interpolants: &mut [u8],
) -> Course
    requires points_given { PointsGiven settings n points.now × (length times.now ≡ counts_size) }
    requires counts_value { (too_short (lent_mut tables) ≡ false) × (512 ≤ length interpolants.old) }
    requires records_len { (length records.now ≡ records_size) × (Below settings.modulus records.now) × (first < most_records) }
    requires firsts_len { (length firsts.now ≡ most_points) × ((j : ℕ) → j < n → 8 * get_or firsts.now j 0 + 16 ≤ length records.now) }
    ensures { CourseWritten settings n first records.now firsts.now points.now times.now (lent_mut tables.entry)
        interpolants.old (course_answer (Ok result)) (left_in tables.exit) interpolants.new }
{
    let p = settings.modulus as u8;
    let m = settings.variables as usize;
    let TablesMut {
        states,
        standard,
        leads,
        coefficients,
        counts,
    } = tables;
    let mut rows = [0u8; sizes::PIVOT_ROWS];
    let mut pivots = [0u8; sizes::POINTS];
    let drawn = draw_points(
        settings,
        n,
        points,
        times,
        TablesMut {
            states,
            standard: &mut *standard,
            leads,
            coefficients,
            counts,
        },
        &mut rows,
        &mut pivots,
    );
    put_model(p, m, n, records, firsts, &rows, &pivots, interpolants);
    let from = 8 * first;
    let back = run(
        p,
        m,
        n,
        &standard[..sizes::STANDARD],
        &interpolants[..GENES],
        &records[from..from + 8],
    )
    .unwrap_or(Return { step: 0, back: 0 });
    Course {
        modulus: p as u16,
        variables: settings.variables as u8,
        order: settings.order as u8,
        n: drawn.n,
        r: drawn.r,
        step: back.step,
        back: back.back,
    }
}

// Whether one of the lent tables, the interpolants or the weights is too short.
#[tactic(auto, unfolding(crate::specs::Outcome::short_for))]
fn short_buffers(tables: TablesRef<'_>, interpolants: &[u8], weights: &[u8]) -> bool
    ensures { result ≡ short_for (lent tables.entry) interpolants.now weights.now }
{
    tables.too_short() || interpolants.len() < GENES || weights.len() < WEIGHTS
}

// The records from `from` on, so many, under these settings: decided, and run where nothing refuses them.
fn run_records(
    text: &[u8],
    from: usize,
    settings: Settings,
    entries: usize,
    course: u64,
    short: bool,
    tables: TablesMut<'_>,
    interpolants: &mut [u8],
) -> Result<Course, Fault>
    requires from_in_bounds { (from ≤ length text.now) × (length text.now ≤ 16384) }
    requires order_bound { (settings.order ≤ 3) × (length settings.weights ≡ 8) }
    requires text_value { counted_entries 0 (entries_at settings.variables (drop from text.now)) ≡ Ok entries }
    requires counts_value { short ≡ false → (too_short (lent_mut tables) ≡ false) × (512 ≤ length interpolants.old) }
    ensures { run_ended (course_answer result) (left_in tables.exit) interpolants.new
        ≡ run_outcome settings (drop from text.now) course short (lent_mut tables.entry) interpolants.old }
{
    check_settings(settings, short)?;
    let p = settings.modulus as u8;
    let m = settings.variables as usize;
    let mut records = [0u8; RECORD_STATES];
    let mut numbers = [0u8; RECORDS];
    if let Err(record) = read_records(text, from, p, m, entries, &mut records, &mut numbers) {
        return Err(Fault {
            refusal: Refusal::OutOfRange,
            at: record as u16 + 2,
        });
    }
    let mut points = [0u8; sizes::STATES];
    let mut times = [0u8; sizes::COUNTS];
    let mut firsts = [0u16; sizes::POINTS];
    let decided = decide(
        entries,
        &records,
        &numbers,
        course,
        &mut points,
        &mut times,
        &mut firsts,
    )?;
    let TablesMut {
        states,
        standard,
        leads,
        coefficients,
        counts,
    } = tables;
    Ok(write_course(
        settings,
        decided.n,
        decided.first,
        &records,
        &firsts,
        &points,
        &times,
        TablesMut {
            states,
            standard,
            leads,
            coefficients,
            counts,
        },
        interpolants,
    ))
}

// The time course of a text, run forward from the first state of the course of this number: the basis of the points, the interpolants of the variables and
// the weights of the settings go to the lent buffers.
pub fn time_course(
    text: &[u8],
    course: u64,
    tables: TablesMut<'_>,
    interpolants: &mut [u8],
    weights: &mut [u8],
) -> Result<Course, Fault>
    ensures { course_ended (course_answer result) (left_in tables.exit) interpolants.new weights.new
        ≡ course_outcome text.now course (lent_mut tables.entry) interpolants.old weights.old }
{
    if 16384 < text.len() {
        return Err(Fault {
            refusal: Refusal::LongText,
            at: 0,
        });
    }
    let mut said = [0u8; 8];
    let Some(
        HeaderAt {
            modulus,
            variables,
            order,
            next,
        },
    ) = read_header(text, &mut said)
    else {
        return Err(Fault {
            refusal: Refusal::Form,
            at: 1,
        });
    };
    let n = check_courses(text, next, variables)?;
    let settings = Settings {
        modulus: modulus as u64,
        variables: variables as u64,
        order: order as u64,
        weights: said,
    };
    let TablesMut {
        states,
        standard,
        leads,
        coefficients,
        counts,
    } = tables;
    let lent = TablesRef {
        states,
        standard,
        leads,
        coefficients,
        counts,
    };
    let short = short_buffers(lent, interpolants, weights);
    let tables = TablesMut {
        states,
        standard,
        leads,
        coefficients,
        counts,
    };
    let ran = run_records(text, next, settings, n, course, short, tables, interpolants)?;
    bytes::copy(&said, weights);
    Ok(ran)
}
