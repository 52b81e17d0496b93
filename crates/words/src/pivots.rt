// Elimination modulo 2 with fully reduced pivots: each is 1 at its own place and 0 at the places of the others, so that a column loses those at whose places
// it is 1, in any order.
ghost use Rattle.std.specs.Prelude.{◌≡◌, ◌<◌, ◌≤◌, length};
ghost use Rattle.words.specs.Packed.{words, pivot_words, lose};
ghost use Rattle.words.specs.PivotTables.{Cleared, RowsIn, LeftAt, PivotsLong, SomeKept, ExaminedAs};

// A column of values, and the polynomial that it comes from.
#[derive(Drop)]
pub struct Left {
    pub column: u64,
    pub polynomial: u64,
}

// One pivot taken away where the monomial's own column is 1 at its place.
fn lost(own: u64, place: usize, column: u64, polynomial: u64, left: Left) -> Left
    requires { place < 64 }
    ensures { words result.column result.polynomial ≡ lose own (pivot_words place column polynomial) (words left.column left.polynomial) }
{
    if own >> place & 1 == 0 {
        return left;
    }
    Left {
        column: left.column ^ column,
        polynomial: left.polynomial ^ polynomial,
    }
}

// What the pivots leave of a monomial's own column: of `own & pivots` the set bits alone are visited. `rows` has the pivot of a place.
fn rest_at(own: u64, pivots: u64, rows: &[u8], columns: &[u64], polynomials: &[u64]) -> Left
    requires { RowsIn pivots rows.now columns.now polynomials.now }
    ensures { LeftAt own pivots rows.now columns.now polynomials.now (words result.column result.polynomial) }
{
    let mut column = own;
    let mut polynomial: u64 = 0;
    let mut left = own & pivots;
    while left != 0 {
        let j = rows[u64::trailing_zeros(left) as usize] as usize;
        column ^= columns[j];
        polynomial ^= polynomials[j];
        left &= left - 1;
    }
    Left { column, polynomial }
}

// Clears the first k pivots at the place of a new one.
fn clear_all(
    k: usize,
    place: usize,
    column: u64,
    polynomial: u64,
    columns: &mut [u64],
    polynomials: &mut [u64],
)
    requires place_bound { place < 64 }
    requires k_in_bounds { k ≤ length columns.old }
    requires k_in_bounds_2 { k ≤ length polynomials.old }
    ensures { Cleared k (pivot_words place column polynomial) columns.old polynomials.old
        columns.new polynomials.new }
{
    for j in 0..k {
        let own = columns[j];
        let left = lost(
            own,
            place,
            column,
            polynomial,
            Left {
                column: own,
                polynomial: polynomials[j],
            },
        );
        columns[j] = left.column;
        polynomials[j] = left.polynomial;
    }
}

// The polynomial of a lead's row, where a column is that of a lead; the places of the pivots after it.
#[derive(Drop)]
pub struct Examined {
    pub row: Option<u64>,
    pub pivots: u64,
}

// Examines a monomial's own column by k pivots; one that is not that of a lead becomes a pivot more. Pivots are cleared two at a time, so what stands behind
// an odd number of them, where the new one comes, is cleared too.
pub fn examine(
    own: u64,
    k: usize,
    pivots: u64,
    rows: &mut [u8],
    columns: &mut [u64],
    polynomials: &mut [u64],
) -> Examined
    requires some_kept { SomeKept own k pivots rows.old columns.old polynomials.old }
    requires pivots_long { PivotsLong rows.old columns.old polynomials.old }
    requires k_bound { k ≤ 64 }
    ensures { ExaminedAs own k result.row pivots result.pivots rows.old columns.old polynomials.old
        rows.new columns.new polynomials.new }
{
    let left = rest_at(own, pivots, rows, columns, polynomials);
    if left.column == 0 {
        return Examined {
            row: Some(left.polynomial),
            pivots,
        };
    }
    let even = (k + 1) / 2 * 2;
    let place = u64::trailing_zeros(left.column) as usize;
    let polynomial = left.polynomial ^ 1u64 << k;
    clear_all(even, place, left.column, polynomial, columns, polynomials);
    rows[place] = k as u8;
    columns[k] = left.column;
    polynomials[k] = polynomial;
    let mark = 1u64 << place;
    Examined {
        row: None,
        pivots: pivots | mark,
    }
}
