// The model of a time course: for each gene the interpolant of its values at the successors.
ghost use Rattle.std.specs.Prelude.{◌≡◌, ℕ, ◌+◌, ◌*◌, ◌<◌, ◌≤◌, length, get_or, take, replicate};
ghost use Rattle.residue.specs.Sizes.{pivot_rows_size};
ghost use Rattle.residue.specs.Vector.{Below};
ghost use Rattle.residue.specs.Layout.{fill, in_places, over};
ghost use Rattle.elimination.specs.Elimination.{Multiplied};
ghost use Rattle.steps.specs.Stepping.{next_values, solutions_of};

use interpolation::solving::solve;
use residue::{bytes, sizes};

// How many bytes the interpolants take, 64 a gene.
pub const GENES: usize = 512;

// Byte g of the record behind each of the first n that `firsts` names.
fn put_next(g: usize, n: usize, records: &[u8], firsts: &[u16], values: &mut [u8])
    requires g_bound { (g < 8) × (n ≤ length firsts.now) × (n ≤ length values.old) }
    requires by_index { (j : ℕ) → j < n → 8 * get_or firsts.now j 0 + 16 ≤ length records.now }
    ensures { values.new ≡ over (next_values g records.now (take n firsts.now)) values.old }
{
    for (j, first) in firsts[..n].iter().enumerate() {
        values[j] = records[8 * (usize::from(*first) + 1) + g];
    }
}

// The interpolants of m genes, in a table of zeros.
fn put_genes(
    p: u8,
    m: usize,
    n: usize,
    records: &[u8],
    firsts: &[u16],
    rows: &[u8],
    pivots: &[u8],
    genes: &mut [u8],
)
    requires le_p { (2 ≤ p) × (p ≤ 61) × (m ≤ 8) × (n ≤ 64) × (n ≤ length firsts.now) }
    requires rows_len { (length rows.now ≡ pivot_rows_size) × (length pivots.now ≡ 64) }
    requires multiplied { (Multiplied p n rows.now) × ((t : ℕ) → t < n → get_or pivots.now t 0 < n) }
    requires below { (Below p records.now) × ((j : ℕ) → j < n → 8 * get_or firsts.now j 0 + 16 ≤ length records.now) }
    requires genes_value { genes.old ≡ replicate 512 0 }
    ensures { genes.new
        ≡ fill 512 (in_places 64 (solutions_of p n rows.now pivots.now records.now firsts.now m)) }
{
    for g in 0..m {
        let mut work = [0u8; sizes::WORK];
        put_next(g, n, records, firsts, &mut work);
        let from = 64 * g;
        solve(p, n, rows, pivots, &mut work, &mut genes[from..from + 64]);
    }
}

// The interpolants of m genes at the n points whose pivot rows these are: the successor of point j is the record behind record `firsts[j]`.
pub fn put_model(
    p: u8,
    m: usize,
    n: usize,
    records: &[u8],
    firsts: &[u16],
    rows: &[u8],
    pivots: &[u8],
    out: &mut [u8],
)
    requires le_p { (2 ≤ p) × (p ≤ 61) × (m ≤ 8) × (n ≤ 64) × (n ≤ length firsts.now) }
    requires rows_len { (length rows.now ≡ pivot_rows_size) × (length pivots.now ≡ 64) }
    requires multiplied { (Multiplied p n rows.now) × ((t : ℕ) → t < n → get_or pivots.now t 0 < n) }
    requires below { (Below p records.now) × ((j : ℕ) → j < n → 8 * get_or firsts.now j 0 + 16 ≤ length records.now) }
    requires in_bounds { 512 ≤ length out.old }
    ensures { out.new ≡ over
        (fill 512 (in_places 64 (solutions_of p n rows.now pivots.now records.now firsts.now m))) out.old }
{
    bytes::clear(&mut out[..GENES]);
    put_genes(p, m, n, records, firsts, rows, pivots, &mut out[..GENES]);
}
