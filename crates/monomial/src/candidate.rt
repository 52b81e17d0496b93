// Which monomial comes next in drawing up. For each variable the products with the standard monomials found increase; `at` has, for each variable, how
// many of them are passed. `ranks` has the ranks of the standard monomials, `steps` those of the variables.
ghost use Rattle.std.specs.Prelude.{◌≡◌, ◌≤◌, length};
ghost use Rattle.residue.specs.Sizes.{standard_size};
ghost use Rattle.residue.specs.Vector.{Below};
ghost use Rattle.monomial.specs.Candidate.{least_of, products_passed, parents_of, occurring_in, search_ends, next_of};
ghost use Rattle.monomial.specs.Rank.{rank_bound};

use crate::exponents::rows;
use residue::sizes::POINTS;

// The least rank among the next products.
fn least(
    m: usize,
    found: usize,
    ranks: &[u64; POINTS],
    steps: &[u64; 8],
    at: &[u8; 8],
) -> Option<u64>
    requires m_bound { (m ≤ 8) × (found ≤ 64) }
    requires below { Below rank_bound ranks.now }
    requires below_2 { Below rank_bound steps.now }
    ensures { result ≡ least_of found ranks.now steps.now at.now m }
{
    let mut best: Option<u64> = None;
    for (passed, step) in at[..m].iter().zip(steps) {
        let t = *passed as usize;
        if t < found {
            let rank = ranks[t] + *step;
            best = Some(best.map_or(rank, |b| b.min(rank)));
        }
    }
    best
}

// How many products there were, and one of them: its variable and its standard monomial.
#[derive(Drop)]
pub struct Parents {
    pub count: usize,
    pub variable: usize,
    pub standard: usize,
}

// Passes every next product of this rank.
fn pass(
    m: usize,
    found: usize,
    ranks: &[u64; POINTS],
    steps: &[u64; 8],
    at: &mut [u8; 8],
    rank: u64,
) -> Parents
    requires m_bound { (m ≤ 8) × (found ≤ 64) }
    requires below { Below rank_bound ranks.now }
    requires below_2 { Below rank_bound steps.now }
    ensures value { result ≡ parents_of found ranks.now steps.now rank at.old m }
    ensures at_after { at.new ≡ products_passed found ranks.now steps.now rank at.old m }
{
    let mut count = 0;
    let mut variable = 0;
    let mut standard = 0;
    for k in 0..m {
        let t = at[k] as usize;
        if t < found && ranks[t] + steps[k] == rank {
            at[k] = (t + 1) as u8;
            count += 1;
            variable = k;
            standard = t;
        }
    }
    Parents {
        count,
        variable,
        standard,
    }
}

// How many variables occur in x_(k+1) times a monomial.
fn occurring(a: &[u8; 8], k: usize) -> usize
    ensures { result ≡ occurring_in a.now k 8 }
{
    let mut count = 0;
    for (i, x) in a.iter().enumerate() {
        if i == k || *x != 0 {
            count += 1;
        }
    }
    count
}

// The variable and the standard monomial of a product, and its rank.
#[derive(Drop)]
pub struct Candidate {
    pub variable: usize,
    pub standard: usize,
    pub rank: u64,
}

// The least next product that is one for each of the variables that occur in it.
pub fn next(
    m: usize,
    found: usize,
    standard: &[u8],
    ranks: &[u64; POINTS],
    steps: &[u64; 8],
    at: &mut [u8; 8],
) -> Option<Candidate>
    requires m_bound { (m ≤ 8) × (found ≤ 64) }
    requires standard_len { length standard.now ≡ standard_size }
    requires below { Below rank_bound ranks.now }
    requires below_2 { Below rank_bound steps.now }
    ensures { search_ends result at.new ≡ next_of m found standard.now ranks.now steps.now at.old }
{
    loop {
        let rank = least(m, found, ranks, steps, at)?;
        let parents = pass(m, found, ranks, steps, at, rank);
        let a = &rows(POINTS, standard)[parents.standard];
        if parents.count == occurring(a, parents.variable) {
            return Some(Candidate {
                variable: parents.variable,
                standard: parents.standard,
                rank,
            });
        }
    }
}
