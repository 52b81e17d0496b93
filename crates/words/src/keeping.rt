// What is found is kept: a monomial in its table, a row of coefficients, and which places are known then.
ghost use Rattle.std.specs.Prelude.{◌≡◌, suc, ◌-◌, ◌^◌, ◌<◌, ◌≤◌, length, set};
ghost use Rattle.residue.specs.Sizes.{most_rows, standard_size, leads_size, coefficients_size};
ghost use Rattle.residue.specs.Layout.{with_place};
ghost use Rattle.monomial.specs.Monomial.{one, times_variable};
ghost use Rattle.residue.specs.Words.{bits_of};
ghost use Rattle.words.specs.ByteColumns.{noted};
ghost use Rattle.words.specs.PlaceSets.{Passed, OfMultiple};

use crate::open::{pass, pass_multiples};
use crate::writing::{keep_eight, keep_row, spread, squared};

// A monomial without squares as a lead, with its row; its multiples are known.
pub fn keep_lead(
    r: usize,
    byte: u8,
    row: u64,
    multiples: &[u64],
    known: &mut [u64],
    leads: &mut [u8],
    coefficients: &mut [u8],
)
    requires r_lt_most_rows { r < most_rows }
    requires multiples_len { (length multiples.now ≡ 32) × (length known.old ≡ 4) }
    requires leads_len { (length leads.old ≡ leads_size) × (length coefficients.old ≡ coefficients_size) }
    ensures leads_after { leads.new ≡ with_place 8 r (bits_of 8 byte) leads.old }
    ensures coefficients_after { coefficients.new ≡ with_place 64 r (bits_of 64 row) coefficients.old }
    ensures passed { Passed (OfMultiple byte multiples.now) known.old known.new }
{
    keep_eight(r, spread(byte), leads);
    keep_row(r, row, coefficients);
    pass_multiples(byte, multiples, known);
}

// The square of x_(k+1) as a lead: its row is 1 at x_(k+1), which is standard monomial `place`, counted from 1.
pub fn keep_square(k: usize, place: u8, r: usize, leads: &mut [u8], coefficients: &mut [u8])
    requires k_bound { (k < 8) × ((r < most_rows) × ((1 ≤ place) × (place ≤ 64))) }
    requires leads_len { (length leads.old ≡ leads_size) × (length coefficients.old ≡ coefficients_size) }
    ensures leads_after { leads.new ≡ with_place 8 r (times_variable k (times_variable k (one 8))) leads.old }
    ensures coefficients_after { coefficients.new ≡ with_place 64 r (bits_of 64 (2 ^ (place - 1))) coefficients.old }
{
    keep_eight(r, squared(k), leads);
    keep_row(r, 1u64 << (place - 1), coefficients);
}

// The place of a variable among the standard monomials. A variable is a monomial of degree 1, and the degree of a byte is its count of ones.
fn note_variable(byte: u8, place: u8, places: &mut [u8])
    requires { length places.old ≡ 8 }
    ensures { places.new ≡ noted byte place places.old }
{
    if u8::count_ones(byte) == 1 {
        places[u8::trailing_zeros(byte) as usize] = place;
    }
}

// A standard monomial, with its column and, if it is a variable, its place among them, counted from 1; its own place in the order is known.
pub fn keep_standard(
    found: usize,
    at: usize,
    byte: u8,
    own: u64,
    values: &mut [u64],
    places: &mut [u8],
    known: &mut [u64],
    standard: &mut [u8],
)
    requires found_bound { (found < 64) × (at < 256) }
    requires values_len { (length values.old ≡ 256) × ((length places.old ≡ 8) × (length known.old ≡ 4)) }
    requires standard_len { length standard.old ≡ standard_size }
    ensures standard_after { standard.new ≡ with_place 8 found (bits_of 8 byte) standard.old }
    ensures values_after { (values.new ≡ set values.old byte own) × (places.new ≡ noted byte (suc found) places.old) }
    ensures passed { Passed (λ i. i ≡ at) known.old known.new }
{
    keep_eight(found, spread(byte), standard);
    values[byte as usize] = own;
    note_variable(byte, found as u8 + 1, places);
    pass(at, known);
}
