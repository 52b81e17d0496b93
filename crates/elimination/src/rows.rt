// Working rows. Each has n values at the points, then one coefficient for each standard monomial found, and is 128 bytes long. A pivot row is kept with its
// multiples, in a block of 1152 bytes.
ghost use Rattle.std.specs.Prelude.{◌≡◌, ◌+◌, ◌*◌, ◌<◌, ◌≤◌, length, get_or, set, MatchOption};
ghost use Rattle.residue.specs.Sizes.{work_size, block_size};
ghost use Rattle.residue.specs.Inverse.{inverse_of};
ghost use Rattle.residue.specs.Vector.{Below};
ghost use Rattle.residue.specs.Layout.{with_place};
ghost use Rattle.elimination.specs.Elimination.{multiples_of};
ghost use Rattle.elimination.specs.Rows.{first_nonzero, pivot_row};

use crate::reducing::gain;
use residue::bytes::{all_zero, copy};
use residue::inverse::inverse;
use residue::sizes;
use residue::vector::scale;

// The place of the first of the n values that is not 0. For most monomials, the leads, there is none, and that is seen first.
pub fn first_nonzero(work: &[u8], n: usize) -> Option<usize>
    requires { n ≤ length work.now }
    ensures { MatchOption result (first_nonzero n work.now ≡ n) (λ q. (q < n) × (q ≡ first_nonzero n work.now)) }
{
    let values = &work[..n];
    if all_zero(values) {
        return None;
    }
    values.iter().position(|x| *x != 0)
}

// Makes the working row a pivot row: its coefficient for its own monomial becomes 1, and then its value at the pivot, unless that is 1 already.
fn normalise(p: u8, own: usize, at: usize, work: &mut [u8])
    requires le_p { (2 ≤ p) × (p ≤ 61) }
    requires own_in_bounds { (own < length work.old) × (at < length work.old) }
    requires below { Below p work.old }
    ensures { work.new ≡ pivot_row p own (inverse_of p (get_or work.old at 0)) work.old }
{
    let c = inverse(p, work[at]);
    work[own] = 1;
    if c == 1 {
        return;
    }
    let len = own + 1;
    scale(p, &mut work[..len], c);
}

// Fills a block with the multiples of a row: each is the one before and the first of its three.
fn put_multiples(p: u8, row: &[u8], block: &mut [u8])
    requires le_p { (2 ≤ p) × (p ≤ 61) }
    requires row_len { (length row.now ≡ work_size) × (length block.old ≡ block_size) }
    requires below { Below p row.now }
    ensures { block.new ≡ multiples_of p row.now }
{
    let mut first = [0u8; sizes::WORK];
    let mut last = [0u8; sizes::WORK];
    copy(row, &mut last);
    for k in 0..9 {
        if k % 3 == 0 {
            copy(&last, &mut first);
        }
        let from = sizes::WORK * k;
        copy(&last, &mut block[from..from + sizes::WORK]);
        gain(p, sizes::WORK, &mut last, &first);
    }
}

// Keeps the working row as the next pivot row, with its multiples and its pivot.
pub fn keep(
    p: u8,
    n: usize,
    found: usize,
    at: usize,
    work: &mut [u8],
    rows: &mut [u8],
    pivots: &mut [u8],
)
    requires le_p { (2 ≤ p) × (p ≤ 61) }
    requires at_lt_n { (at < n) × ((n + found < work_size) × (length work.old ≡ work_size)) }
    requires block_size_in_bounds { (block_size * found + block_size ≤ length rows.old) × (found < length pivots.old) }
    requires below { Below p work.old }
    ensures work_after { work.new ≡ pivot_row p (n + found) (inverse_of p (get_or work.old at 0)) work.old }
    ensures rows_after { rows.new
        ≡ with_place block_size found (multiples_of p (pivot_row p (n + found) (inverse_of p (get_or work.old at 0)) work.old))
        rows.old }
    ensures pivots_after { pivots.new ≡ set pivots.old found at }
{
    normalise(p, n + found, at, work);
    let from = sizes::BLOCK * found;
    put_multiples(p, work, &mut rows[from..from + sizes::BLOCK]);
    pivots[found] = at as u8;
}
