// The points of a table without one of their coordinates, and their counts.
ghost use Rattle.std.specs.Prelude.{◌≡◌, ℕ, OnErr, cond, ◌+◌, ◌*◌, ◌<◌, ◌≤◌, length, get_or, set, replicate, T, leb, ltb};
ghost use Rattle.residue.specs.Sizes.{states_size, counts_size};
ghost use Rattle.residue.specs.Lists.{every, some};
ghost use Rattle.residue.specs.Layout.{fill, with_place};
ghost use Rattle.specification.specs.Answers.{refusal_of};
ghost use Rattle.specification.specs.Counted.{counts_of};
ghost use Rattle.specification.specs.LeaveOut.{without_variable};
ghost use Rattle.points.specs.Gathering.{TabledAs};
ghost use Rattle.points.specs.Leaving.{counted_in};

use crate::places::place_of;
use monomial::insert::take_out;
use residue::bytes;
use specification::refusals::Refusal;

// Adds to the count at a place. A sum above 255 is refused: then the count stays.
#[tactic(auto, unfolding(specification::specs::Answers::refusal_of, specification::specs::Answers::number_of))]
fn raise(at: usize, more: u8, counts: &mut [u8]) -> Result<(), Refusal>
    requires { at < length counts.old }
    ensures refusal_value { refusal_of result ≡ cond (ltb 255 (get_or counts.old at 0 + more)) 13 0 }
    ensures counts_after { result ≡ Ok tt → counts.new ≡ set counts.old at (get_or counts.old at 0 + more) }
    ensures counts_kept { OnErr result (counts.new ≡ counts.old) }
{
    let Some(sum) = counts[at].checked_add(more) else {
        return Err(Refusal::TooOften);
    };
    counts[at] = sum;
    Ok(())
}

// The n points of a table, of m coordinates each, without coordinate k, in tables of zeros, and how many they are: equal ones are one, at the place of the first,
// and their counts are added. A count above 255 is refused at once: no refusal comes behind it. A new point has count 0 until its own is added.
pub fn gather_without(
    m: usize,
    k: usize,
    n: usize,
    states: &[u8],
    times: &[u8],
    points: &mut [u8],
    counts: &mut [u8],
) -> Result<usize, Refusal>
    requires k_lt_m { (k < m) × (m ≤ 8) × (n ≤ 64) }
    requires n_in_bounds { (8 * n ≤ length states.now) × (n ≤ length times.now) × T (every (leb 1) (fill n times.now)) }
    requires points_value { (points.old ≡ replicate states_size 0) × (counts.old ≡ replicate counts_size 0) }
    ensures refusal_value { refusal_of result ≡ cond (some (ltb 255) (counts_of (without_variable k (counted_in m n states.now times.now)))) 13 0 }
    ensures tabled_as { (left : ℕ) → result ≡ Ok left → TabledAs (without_variable k (counted_in m n states.now times.now)) left points.new counts.new }
{
    let mut left = 0;
    for (i, &count) in times[..n].iter().enumerate() {
        let from = 8 * i;
        let mut point = [0u8; 8];
        take_out(1, m, k, &states[from..from + m], &mut point);
        let at = place_of(left, points, &point);
        raise(at, count, counts)?;
        if at == left {
            let place = 8 * left;
            bytes::copy(&point, &mut points[place..place + 8]);
            left += 1;
        }
    }
    Ok(left)
}
