// What the addition of a point works with, once it is known which row is lost.
ghost use Rattle.std.specs.Prelude.{◌≡◌, ℕ, ◌<◌, ◌≤◌, length, get_or};
ghost use Rattle.residue.specs.Sizes.{most_points, states_size, pivot_rows_size};
ghost use Rattle.residue.specs.Vector.{Below};
ghost use Rattle.elimination.specs.Elimination.{Multiplied};

// The modulus p, the n points so far with their pivot rows, the place of the lost row's lead among the standard monomials, the inverse of the lost row's
// value at the new point, the lost row's coefficients, the new point, and the standard monomials' values there.
#[derive(Drop)]
pub(crate) struct Addition<'a> {
    pub(crate) p: u8,
    pub(crate) n: usize,
    pub(crate) points: &'a [u8],
    pub(crate) rows: &'a [u8],
    pub(crate) pivots: &'a [u8],
    pub(crate) place: usize,
    pub(crate) inverse: u8,
    pub(crate) gone: &'a [u8],
    pub(crate) point: &'a [u8],
    pub(crate) values: &'a [u8],
    ghost bounds: { (2 ≤ p) × (p ≤ 61) × (n < 64) × (place < 64) × (inverse < p) },
    ghost tables_len: { (length points.now ≡ states_size) × (length rows.now ≡ pivot_rows_size) × (length pivots.now ≡ most_points) },
    ghost gone_len: { (length gone.now ≡ most_points) × (length point.now ≡ 8) × (length values.now ≡ most_points) },
    ghost residues: { Below p points.now × Multiplied p n rows.now × Below p gone.now × Below p point.now × Below p values.now },
    ghost pivots_below: { (t : ℕ) → t < n → get_or pivots.now t 0 < n },
}
