// The lines of a basis. As in `appending`, each function answers the place behind what it wrote.
ghost use Rattle.std.specs.Prelude.{◌≡◌, ◌*◌, ◌≤◌, length, map, take};
ghost use Rattle.residue.specs.Sizes.{most_rows};
ghost use Rattle.specification.specs.Answers.{number_of};
ghost use Rattle.writing.specs.Appending.{Room, Put};
ghost use Rattle.printing.specs.Lines.{spaced, spaced_numbers, labelled, line, first_line, refusal_line};
ghost use Rattle.writing.specs.Rows.{in_table};
ghost use Rattle.printing.specs.Lines.{standard_lines, row_line, row_lines, basis_lines};

use specification::refusals::Fault;
use writing::appending::{put_byte, put_word};
use writing::decimal::put_digits;
use writing::tables::rows;

// A space and the number.
fn put_number(out: &mut [u8], at: usize, n: u16) -> usize
    requires { Room at (spaced n) out.old }
    ensures { Put at (spaced n) out.old out.new result }
{
    let next = put_byte(out, at, b' ');
    put_digits(out, next, n)
}

fn put_numbers(out: &mut [u8], at: usize, list: &[u8]) -> usize
    requires { Room at (spaced_numbers list.now) out.old }
    ensures { Put at (spaced_numbers list.now) out.old out.new result }
{
    let mut next = at;
    for v in list {
        next = put_number(out, next, u16::from(*v));
    }
    next
}

// A word and a number.
fn put_labelled(out: &mut [u8], at: usize, word: &[u8], n: u16) -> usize
    requires { Room at (labelled word.now n) out.old }
    ensures { Put at (labelled word.now n) out.old out.new result }
{
    let next = put_word(out, at, word);
    put_number(out, next, n)
}

// A word and numbers, as a line.
fn put_line(out: &mut [u8], at: usize, word: &[u8], list: &[u8]) -> usize
    requires { Room at (line word.now list.now) out.old }
    ensures { Put at (line word.now list.now) out.old out.new result }
{
    let next = put_word(out, at, word);
    let end = put_numbers(out, next, list);
    put_byte(out, end, b'\n')
}

fn put_first_line(out: &mut [u8], at: usize, n: u16, r: u16) -> usize
    requires { Room at (first_line n r) out.old }
    ensures { Put at (first_line n r) out.old out.new result }
{
    let points = put_labelled(out, at, b"points", n);
    let standard = put_labelled(out, points, b" standard", n);
    let rows = put_labelled(out, standard, b" rows", r);
    put_byte(out, rows, b'\n')
}

fn put_row(out: &mut [u8], at: usize, lead: &[u8], coefficients: &[u8]) -> usize
    requires { Room at (row_line lead.now coefficients.now) out.old }
    ensures { Put at (row_line lead.now coefficients.now) out.old out.new result }
{
    let next = put_word(out, at, b"row");
    let end = put_numbers(out, next, lead);
    put_line(out, end, b" :", coefficients)
}

// The number of a refusal, and the record at fault.
pub fn put_refusal(out: &mut [u8], at: usize, fault: Fault) -> usize
    requires { Room at (refusal_line (number_of fault.refusal) fault.at) out.old }
    ensures { Put at (refusal_line (number_of fault.refusal) fault.at) out.old out.new result }
{
    let next = put_labelled(out, at, b"refused", fault.refusal.number() as u16);
    let end = put_number(out, next, fault.at);
    put_byte(out, end, b'\n')
}

// The first m exponents of the standard monomials, each a line.
fn put_standard(out: &mut [u8], at: usize, m: usize, standard: &[[u8; 8]]) -> usize
    requires m_bound { m ≤ 8 }
    requires room { Room at (standard_lines (map (take m) standard.now)) out.old }
    ensures { Put at (standard_lines (map (take m) standard.now)) out.old out.new result }
{
    let mut next = at;
    for monomial in standard {
        next = put_line(out, next, b"standard", &monomial[..m]);
    }
    next
}

// The rows, each a line: the first m exponents of its lead and its first n coefficients.
fn put_rows(
    out: &mut [u8],
    at: usize,
    m: usize,
    n: usize,
    leads: &[[u8; 8]],
    coefficients: &[[u8; 64]],
) -> usize
    requires m_bound { (m ≤ 8) × (n ≤ 64) }
    requires as_many { length leads.now ≡ length coefficients.now }
    requires room { Room at (row_lines (map (take m) leads.now) (map (take n) coefficients.now)) out.old }
    ensures { Put at (row_lines (map (take m) leads.now) (map (take n) coefficients.now))
        out.old out.new result }
{
    let mut next = at;
    for (lead, row) in leads.iter().zip(coefficients) {
        next = put_row(out, next, &lead[..m], &row[..n]);
    }
    next
}

// The lines of a drawn-up basis of n points in m variables, with r rows, of an interpolant and of a wiring list.
pub fn print_basis(
    m: usize,
    n: usize,
    r: usize,
    standard: &[u8],
    leads: &[u8],
    coefficients: &[u8],
    interpolant: &[u8],
    names: &[u8],
    out: &mut [u8],
) -> usize
    requires m_bound { (m ≤ 8) × (n ≤ 64) × (r ≤ most_rows) }
    requires n_in_bounds { (8 * n ≤ length standard.now) × (8 * r ≤ length leads.now) × (64 * r ≤ length coefficients.now) }
    requires room { Room 0 (basis_lines (in_table 8 n m standard.now) (in_table 8 r m leads.now) (in_table 64 r n coefficients.now)
        interpolant.now names.now) out.old }
    ensures { Put 0 (basis_lines (in_table 8 n m standard.now) (in_table 8 r m leads.now)
        (in_table 64 r n coefficients.now) interpolant.now names.now)
        out.old out.new result }
{
    let first = put_first_line(out, 0, n as u16, r as u16);
    let middle = put_standard(out, first, m, rows::<8>(n, standard));
    let end = put_rows(
        out,
        middle,
        m,
        n,
        rows::<8>(r, leads),
        rows::<64>(r, coefficients),
    );
    let last = put_line(out, end, b"interpolant", interpolant);
    put_line(out, last, b"wiring", names)
}
