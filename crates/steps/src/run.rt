// The run of the model from a state.
ghost use Rattle.std.specs.Prelude.{◌≡◌, ℕ, ◌*◌, ◌<◌, ◌≤◌, length, get_or};
ghost use Rattle.residue.specs.Vector.{Below};
ghost use Rattle.courses.specs.TimeCourse.{return_of};
ghost use Rattle.steps.specs.Stepping.{step_of};

use crate::stepping::step;
use courses::returns::Return;
use points::places::place_of;
use residue::bytes::copy;

// The bytes of the states that a run meets: the first, and 256 more.
const MET: usize = 2056;

// A number above all of these.
fn above(a: &[u8]) -> usize
    ensures { (result ≤ 256) × ((i : ℕ) → i < length a.now → get_or a.now i 0 < result) }
{
    match a.iter().max() {
        Some(largest) => usize::from(*largest) + 1,
        None => 1,
    }
}

// At most 256 steps of the model of m genes over n standard monomials. The states met stand from the end of their table to its front, so that a search meets
// the latest first.
pub fn run(p: u8, m: usize, n: usize, standard: &[u8], genes: &[u8], start: &[u8]) -> Option<Return>
    requires le_p { (2 ≤ p) × (p ≤ 61) × (m ≤ 8) × (n ≤ 64) }
    requires in_bounds { (512 ≤ length standard.now) × (512 ≤ length genes.now) × Below p genes.now }
    requires start_len { (length start.now ≡ 8) × Below p start.now }
    ensures { result ≡ return_of (step_of p m n standard.now genes.now) start.now }
{
    let exponents = above(&standard[..8 * n]);
    let mut met = [0u8; MET];
    copy(start, &mut met[2048..]);
    for k in 0..256 {
        let from = 8 * (256 - k);
        let mut next = [0u8; 8];
        step(
            p,
            m,
            n,
            exponents,
            standard,
            genes,
            &met[from..from + 8],
            &mut next,
        );
        let at = place_of(k + 1, &met[from..], &next);
        if at <= k {
            return Some(Return {
                step: k as u16 + 1,
                back: at as u16 + 1,
            });
        }
        copy(&next, &mut met[from - 8..from]);
    }
    None
}
