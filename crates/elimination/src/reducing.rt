// Elimination. A row meets the pivot rows one after the other and gains of each as many times as cancels its entry at that row's pivot. The factor is never
// multiplied by: its digits to the base 4 name the multiples to be added, which were made when the pivot row was kept.
ghost use Rattle.std.specs.Prelude.{◌≡◌, cond, ℕ, ◌+◌, ◌-◌, ◌*◌, ◌^◌, ◌<◌, ◌≤◌, length, get_or, take, drop, replicate, eqb};
ghost use Rattle.residue.specs.Sizes.{work_size, block_size};
ghost use Rattle.residue.specs.Vector.{Below, add_scaled};
ghost use Rattle.elimination.specs.Elimination.{cancelled, eliminated, counted, cancellations, multiples_of, Multiplied, ZeroFrom, whole_width, ZeroBehind};

use residue::arithmetic::add;
use residue::sizes;
use residue::vector::each_with;

// Adds a row, which is 0 from `width` on.
pub(crate) fn gain(p: u8, width: usize, dst: &mut [u8], row: &[u8])
    requires le_p { (2 ≤ p) × (p ≤ 61) }
    requires width_le_work_size { (width ≤ work_size) × (length dst.old ≡ work_size) × (length row.now ≡ work_size) }
    requires below { Below p dst.old × Below p row.now }
    requires zero_from { ZeroFrom width row.now }
    ensures { dst.new ≡ add_scaled p 1 dst.old row.now }
{
    each_with(&mut dst[..width], &row[..width], |x, y| add(p, x, y));
}

// Adds three rows, so that the row that gains is read and written once.
fn gain_three(p: u8, width: usize, dst: &mut [u8], a: &[u8], b: &[u8], c: &[u8])
    requires le_p { (2 ≤ p) × (p ≤ 61) }
    requires width_le_work_size { (width ≤ work_size) × (length dst.old ≡ work_size) × (length a.now ≡ work_size) × (length b.now ≡ work_size)
        × (length c.now ≡ work_size) }
    requires below { Below p dst.old × Below p a.now × Below p b.now × Below p c.now }
    requires zero_from { ZeroFrom width a.now × ZeroFrom width b.now × ZeroFrom width c.now }
    ensures { dst.new
        ≡ add_scaled p 1 (add_scaled p 1 (add_scaled p 1 dst.old a.now) b.now) c.now }
{
    for i in 0..width {
        dst[i] = add(p, add(p, add(p, dst[i], a[i]), b[i]), c[i]);
    }
}

// The multiple that a digit names among three of a block, of which it is given the first one's number; zeros for the digit 0.
fn multiple<'a>(digit: usize, first: usize, zeros: &'a [u8], block: &'a [u8]) -> &'a [u8]
    requires { (digit ≤ 3) × (first ≤ 6) × (length block.now ≡ block_size) }
    ensures { result.now ≡ cond (eqb digit 0) zeros.now (take work_size (drop (work_size * (first + digit - 1)) block.now)) }
{
    if digit == 0 {
        return zeros;
    }
    let from = sizes::WORK * (first + digit - 1);
    &block[from..from + sizes::WORK]
}

// Cancels the entry at a place by the row of a block, which is 0 from `width` on. Up to 5 each factor is the number of a multiple. Answers 1, or 0 where the
// entry is 0 already.
fn cancel<'a>(
    p: u8,
    width: usize,
    zeros: &'a [u8],
    block: &'a [u8],
    at: usize,
    work: &mut [u8],
) -> usize
    requires le_p { (2 ≤ p) × (p ≤ 61) × (width ≤ work_size) × (at < work_size) }
    requires block_len { (length block.now ≡ block_size) × (length work.old ≡ work_size) × Below p work.old }
    requires zeros_value { (zeros.now ≡ replicate work_size 0) × (block.now ≡ multiples_of p (take work_size block.now)) × ZeroFrom width (take work_size block.now) }
    ensures work_after { work.new ≡ cancelled p (take work_size block.now) at work.old }
    ensures value { result ≡ counted (get_or work.old at 0) }
{
    let x = work[at];
    if x == 0 {
        return 0;
    }
    let c = p - x;
    if p <= 5 {
        let from = sizes::WORK * (c - 1) as usize;
        gain(p, width, work, &block[from..from + sizes::WORK]);
        return 1;
    }
    let low = multiple((c & 3) as usize, 0, zeros, block);
    let middle = multiple((c >> 2 & 3) as usize, 3, zeros, block);
    let high = multiple((c >> 4) as usize, 6, zeros, block);
    gain_three(p, width, work, low, middle, high);
    1
}

// How many entries of a row are looked at where row and pivot rows are 0 from `end` on: whole vectors, so that no tail is left to the packed loop.
fn whole(end: usize) -> usize
    requires { end < 2 ^ 63 }
    ensures { result ≡ whole_width end }
{
    if 112 < end {
        return sizes::WORK;
    }
    (end + 15) / 16 * 16
}

// The row meets the pivot rows in the order in which they were found; each cancels its entry at that row's pivot. Pivot row t is 0 behind entry n + t.
// Answers how many cancellations that took.
pub fn eliminate(
    p: u8,
    n: usize,
    found: usize,
    rows: &[u8],
    pivots: &[u8],
    work: &mut [u8],
) -> usize
    requires le_p { (2 ≤ p) × (p ≤ 61) × (n ≤ work_size) }
    requires zero_behind { ZeroBehind n found rows.now }
    requires work_len { length work.old ≡ work_size }
    requires found_in_bounds { (block_size * found ≤ length rows.now) × (found ≤ length pivots.now) }
    requires multiplied { Multiplied p found rows.now × Below p work.old }
    requires by_index { (t : ℕ) → t < found → get_or pivots.now t 0 < work_size }
    ensures work_after { work.new ≡ eliminated p rows.now pivots.now found work.old }
    ensures value { result ≡ cancellations p rows.now pivots.now found work.old }
{
    let zeros = [0u8; sizes::WORK];
    let mut made = 0;
    for t in 0..found {
        let from = sizes::BLOCK * t;
        let at = pivots[t] as usize;
        made += cancel(
            p,
            whole(n + t + 1),
            &zeros,
            &rows[from..from + sizes::BLOCK],
            at,
            work,
        );
    }
    made
}
