// The distinct points of a list and how often each occurs.
ghost use Rattle.std.specs.Prelude.{◌≡◌, ◌&&◌, [], ℕ, suc, ◌+◌, ◌*◌, ◌%◌, ◌<◌, ◌≤◌, length, get_or, set, replicate, T, eqb, ltb};
ghost use Rattle.residue.specs.Sizes.{states_size, counts_size};
ghost use Rattle.residue.specs.Lists.{key_of};
ghost use Rattle.residue.specs.Layout.{groups, row_at};
ghost use Rattle.specification.specs.Levels.{residues, no_repeat};
ghost use Rattle.specification.specs.Refusal.{first_of};
ghost use Rattle.specification.specs.Answers.{refusal_of};
ghost use Rattle.specification.specs.Counted.{place_in, gathered, overfull};
ghost use Rattle.points.specs.Gathering.{Hinted, hint_of, points_entered, counts_entered, EnteredAs, entered_while_room, TabledAs};

use crate::levels::put_point;
use crate::places::{key, place_of};
use residue::bytes;
use specification::refusals::Refusal;

// How many hints there are. By 233 points of small grids share fewer remainders than by chance.
pub const HINTS: usize = 233;

// Where the hint of a point with this key stands.
fn hint_place(own: u64) -> usize
    ensures { result ≡ own % 233 }
{
    (own % HINTS as u64) as usize
}

// Whether the point with this key stands at a place among the first n of a table.
fn hint_holds(n: usize, points: &[u8], own: u64, guess: usize) -> bool
    requires { (n ≤ 64) × (8 * n ≤ length points.now) }
    ensures { result ≡ (ltb guess n && eqb own (key_of 8 (row_at 8 guess points.now))) }
{
    if n <= guess {
        return false;
    }
    let place = 8 * guess;
    own == key(&points[place..place + 8])
}

// Where a point whose key is known stands among the first n of a table, none of which repeats, or n. A hint is one more than where a point with the same
// remainder of its key was found last, or 0 where there is none: then the point is new, without a search and without a look at its bytes. The reader of text
// has just written them one by one, and a load of all at once would wait for them.
#[inline(always)]
fn find_by(n: usize, points: &[u8], point: &[u8], own: u64, hints: &mut [u8]) -> usize
    requires n_bound { (n ≤ 64) × (8 * n ≤ length points.now) × (length point.now ≡ 8) × (own ≡ key_of 8 point.now) }
    requires t { T (no_repeat (groups 8 n points.now)) × Hinted n points.now hints.old }
    ensures value { result ≡ place_in point.now (groups 8 n points.now) }
    ensures hints_after { hints.new ≡ set hints.old (hint_of point.now) (suc result) }
{
    let remainder = hint_place(own);
    let Some(guess) = (hints[remainder] as usize).checked_sub(1) else {
        hints[remainder] = n as u8 + 1;
        return n;
    };
    if hint_holds(n, points, own, guess) {
        return guess;
    }
    let at = place_of(n, points, point);
    hints[remainder] = at as u8 + 1;
    at
}

// Enters a point whose place among the first n of a table is known, n where it is new: a new one behind them, with count 1, unless 64 are there; one that is
// there is counted, unless its count is 255. Says whether it is.
#[inline(always)]
#[tactic(auto, using(residue::proofs::Replaced::put_place), unfolding(crate::specs::Gathering::points_entered, crate::specs::Gathering::counts_entered))]
fn enter_at(n: usize, at: usize, points: &mut [u8], counts: &mut [u8], point: &[u8]) -> bool
    requires n_bound { (n ≤ 64) × (at ≤ n) }
    requires points_len { (length points.old ≡ states_size) × (length counts.old ≡ counts_size) × (length point.now ≡ 8) }
    ensures value { result ≡ (ltb at n && eqb (get_or counts.old at 0) 255) }
    ensures points_after { points.new ≡ points_entered n at point.now points.old }
    ensures counts_after { counts.new ≡ counts_entered n at counts.old }
{
    if at < n {
        let Some(count) = counts[at].checked_add(1) else {
            return true;
        };
        counts[at] = count;
        return false;
    }
    if n < 64 {
        let place = 8 * n;
        bytes::copy(point, &mut points[place..place + 8]);
        counts[n] = 1;
    }
    false
}

// Where a point stands among the first n of a table, n where it is new; whether its count is 255 already.
#[derive(Drop)]
pub struct Entered {
    pub at: usize,
    pub over: bool,
}

// Enters a point, whose key is known, among the first n of a table, none of which repeats. Inlined: a call for each of the points would take its time.
#[inline(always)]
#[tactic(auto, using(crate::proofs::places::PointPlaces::place_few))]
pub fn enter(
    n: usize,
    points: &mut [u8],
    counts: &mut [u8],
    hints: &mut [u8],
    point: &[u8],
    own: u64,
) -> Entered
    requires n_bound { (n ≤ 64) × (own ≡ key_of 8 point.now) }
    requires points_len { (length points.old ≡ states_size) × (length counts.old ≡ counts_size) × (length point.now ≡ 8) }
    requires t { T (no_repeat (groups 8 n points.old)) × Hinted n points.old hints.old }
    ensures { EnteredAs n point.now points.old counts.old hints.old result.at result.over
        points.new counts.new hints.new }
{
    let at = find_by(n, points, point, own, hints);
    let over = enter_at(n, at, points, counts, point);
    Entered { at, over }
}

// The distinct points of levels, m a point, in a table of zeros, with their counts, and how many they are: the 65th is too many, and one that occurs more than
// 255 times too often. Of refused ones the table has the points before the 65th, and a count stays at 255.
pub fn gather(
    p: u8,
    m: usize,
    count: usize,
    levels: &[i8],
    points: &mut [u8],
    counts: &mut [u8],
) -> Result<usize, Refusal>
    requires m_bound { (m ≤ 8) × (length levels.now ≡ m * count) }
    requires points_value { (points.old ≡ replicate states_size 0) × (counts.old ≡ replicate counts_size 0) }
    ensures refusal_value { refusal_of result ≡ first_of 0 (overfull (gathered (groups m count (residues p levels.now)))) }
    ensures n_value { (n : ℕ) → result ≡ Ok n → n ≡ length (entered_while_room (groups m count (residues p levels.now)) []) }
    ensures tabled_as { TabledAs (entered_while_room (groups m count (residues p levels.now)) [])
        (length (entered_while_room (groups m count (residues p levels.now)) [])) points.new counts.new }
{
    let mut hints = [0u8; HINTS];
    let mut n = 0;
    let mut over = false;
    for i in 0..count {
        let mut point = [0u8; 8];
        put_point(p, m, m * i, levels, &mut point);
        let met = enter(n, points, counts, &mut hints, &point, key(&point));
        if met.at == 64 {
            return Err(Refusal::TooMany);
        }
        if met.at == n {
            n += 1;
        }
        over = over | met.over;
    }
    if over {
        return Err(Refusal::TooOften);
    }
    Ok(n)
}
