// Bits written as bytes: exponents of monomials and rows of coefficients.
ghost use Rattle.std.specs.Prelude.{◌≡◌, ◌+◌, ◌*◌, ◌<◌, ◌≤◌, length};
ghost use Rattle.residue.specs.Sizes.{most_points, most_rows};
ghost use Rattle.residue.specs.Layout.{with_place};
ghost use Rattle.monomial.specs.Monomial.{one, times_variable};
ghost use Rattle.residue.specs.Words.{bits_of, bytes_of};

// Eight bits as the eight bytes of a word. The product repeats the byte eight times, of which the mask takes one bit each; 127 more carries it to the top of
// its byte, wherever it stands.
pub fn spread(byte: u8) -> u64
    ensures { bytes_of 8 result ≡ bits_of 8 byte }
{
    let eight = byte as u64 * 72340172838076673 & 9241421688590303745;
    eight + 9187201950435737471 >> 7 & 72340172838076673
}

// The exponents of the square of x_(k+1), as the eight bytes of a word.
pub fn squared(k: usize) -> u64
    requires { k < 8 }
    ensures { bytes_of 8 result ≡ times_variable k (times_variable k (one 8)) }
{
    2u64 << 8 * k
}

// The eight bytes of a word, the lowest first.
fn put_eight(eight: u64, to: &mut [u8])
    requires { length to.old ≡ 8 }
    ensures { to.new ≡ bytes_of 8 eight }
{
    to.copy_from_slice(&eight.to_le_bytes());
}

// Eight bytes at their place of a table.
pub fn keep_eight(i: usize, eight: u64, table: &mut [u8])
    requires { (i < most_rows) × (8 * i + 8 ≤ length table.old) }
    ensures { table.new ≡ with_place 8 i (bytes_of 8 eight) table.old }
{
    let from = 8 * i;
    put_eight(eight, &mut table[from..from + 8]);
}

// The 64 coefficients of a row.
fn put_row(word: u64, to: &mut [u8])
    requires { length to.old ≡ most_points }
    ensures { to.new ≡ bits_of 64 word }
{
    for k in 0..8 {
        let from = 8 * k;
        put_eight(spread((word >> from & 255) as u8), &mut to[from..from + 8]);
    }
}

// A row at its place of the table.
pub fn keep_row(r: usize, word: u64, coefficients: &mut [u8])
    requires { (r < most_rows) × (64 * r + 64 ≤ length coefficients.old) }
    ensures { coefficients.new ≡ with_place 64 r (bits_of 64 word) coefficients.old }
{
    let from = 64 * r;
    put_row(word, &mut coefficients[from..from + 64]);
}
