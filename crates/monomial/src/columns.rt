// Columns: one coordinate of each point.
ghost use Rattle.std.specs.Prelude.{◌≡◌, ◌<◌, ◌≤◌, length, replicate};
ghost use Rattle.residue.specs.Sizes.{states_size, columns_size};
ghost use Rattle.residue.specs.Layout.{fill, in_places, over};
ghost use Rattle.monomial.specs.Columns.{column_of, columns_of};

use crate::exponents::rows;

// One coordinate of each point.
pub(crate) fn put_column(n: usize, k: usize, points: &[u8], column: &mut [u8])
    requires { (n ≤ length column.old) × ((k < 8) × ((length points.now ≡ states_size) × (n ≤ 64))) }
    ensures { column.new ≡ over (column_of k n points.now) column.old }
{
    for (i, point) in rows(n, points).iter().enumerate() {
        column[i] = point[k];
    }
}

// Each coordinate of each point, 64 numbers for a coordinate.
pub fn put_columns(n: usize, points: &[u8], columns: &mut [u8])
    requires points_len { (length points.now ≡ states_size) × (n ≤ 64) }
    requires columns_value { columns.old ≡ replicate columns_size 0 }
    ensures { columns.new ≡ fill columns_size (in_places 64 (columns_of 8 n points.now)) }
{
    for k in 0..8 {
        let from = 64 * k;
        put_column(n, k, points, &mut columns[from..from + 64]);
    }
}
