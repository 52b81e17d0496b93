// Columns of values at the points, as words: bit i is the value at point i.
ghost use Rattle.std.specs.Prelude.{◌≡◌, ℕ, ◌*◌, ◌-◌, ◌^◌, ◌<◌, ◌≤◌, length, get_or, replicate};
ghost use Rattle.residue.specs.Sizes.{states_size};
ghost use Rattle.residue.specs.Vector.{Below};
ghost use Rattle.words.specs.ByteColumns.{Pushed, VariableColumns, OwnColumn};

use points::places::key;

// The bytes of a word in front of the variables' columns, that of the first variable the highest.
fn push_eight(eight: u64, columns: &mut [u64])
    requires columns_len { length columns.old ≡ 8 }
    requires by_index { (k : ℕ) → k < 8 → get_or columns.old k 0 < 2 ^ 56 }
    ensures { Pushed eight columns.old columns.new }
{
    let mut rest = eight;
    for j in 0..8 {
        let k = 7 - j;
        columns[k] = columns[k] * 256 + rest % 256;
        rest = rest / 256;
    }
}

// The columns of the variables at the n points of a table, from the last point to the first. Those of up to eight points are gathered in the bytes of a
// word, all at once.
pub fn put_variables(n: usize, points: &[u8], columns: &mut [u64])
    requires n_bound { (n ≤ 64) × ((length points.now ≡ states_size) × (columns.old ≡ replicate 8 0)) }
    requires below { Below 2 points.now }
    ensures { VariableColumns n points.now columns.new }
{
    let mut eight = 0u64;
    for j in 0..n {
        let i = n - 1 - j;
        let from = 8 * i;
        let point = key(&points[from..from + 8]);
        eight = 2 * eight + point;
        if i % 8 == 0 {
            push_eight(eight, columns);
            eight = 0;
        }
    }
}

// The column of 1.
pub fn ones(n: usize) -> u64
    requires { n ≤ 64 }
    ensures { result ≡ 2 ^ n - 1 }
{
    if n == 64 {
        return u64::MAX;
    }
    (1u64 << n) - 1
}

// A monomial's own column, from that of the monomial without its first variable.
pub fn own_column(byte: u8, ones: u64, columns: &[u64], values: &[u64]) -> u64
    requires { (length columns.now ≡ 8) × (length values.now ≡ 256) }
    ensures { OwnColumn byte ones columns.now values.now result }
{
    if byte == 0 {
        return ones;
    }
    columns[u8::trailing_zeros(byte) as usize] & values[(byte & (byte - 1)) as usize]
}
