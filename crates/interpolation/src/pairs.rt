// The wiring list: the variables with a pair of points that differ in it alone and have different values.
ghost use Rattle.std.specs.Prelude.{◌≡◌, false, ℕ, Some, ◌+◌, ◌-◌, ◌*◌, ◌^◌, ◌<◌, ◌≤◌, length, take, replicate, Decides};
ghost use Rattle.residue.specs.Layout.{groups, fill};
ghost use Rattle.specification.specs.Needed.{apart, pair_in, wiring_of};
ghost use Rattle.interpolation.specs.Pairs.{valued_in, rest_of, Rests, Chained, some_below, contrary_to, Constant};

use points::places::key;
use residue::sizes;

// The place of the only byte in which two points differ, if they differ in one alone.
fn only_difference(a: &[u8], b: &[u8]) -> Option<usize>
    requires { (length a.now ≡ 8) × (length b.now ≡ 8) }
    ensures { (k : ℕ) → k < 8 → Decides (apart k a.now b.now) (result ≡ Some k) }
{
    let mut only = None;
    for (i, (x, y)) in a.iter().zip(b).enumerate() {
        if x != y {
            if only.is_some() {
                return None;
            }
            only = Some(i);
        }
    }
    only
}

// What a coordinate counts in the key of a point.
const WEIGHTS: [u64; 8] = [
    72057594037927936,
    281474976710656,
    1099511627776,
    4294967296,
    16777216,
    65536,
    256,
    1,
];

// The key of a point with variable k left out, which has this weight.
fn rest(k: usize, weight: u64, point: &[u8]) -> u64
    requires { (k < 8) × (weight ≡ 256 ^ (7 - k)) × (length point.now ≡ 8) }
    ensures { result ≡ rest_of k point.now }
{
    key(point) - weight * point[k] as u64
}

// These keys of the n points of a table. Points that differ in variable k alone have the same one.
fn put_rests(k: usize, n: usize, points: &[u8], rests: &mut [u64])
    requires { (k < 8) × (8 * n ≤ length points.now) × (n ≤ length rests.old) }
    ensures { Rests k n points.now rests.new }
{
    let weight = WEIGHTS[k];
    for (i, point) in points[..8 * n].chunks_exact(8).enumerate() {
        rests[i] = rest(k, weight, point);
    }
}

// Whether point i and an earlier one differ in variable k alone and have different values. Only the points of its chain can.
fn against_earlier(
    k: usize,
    i: usize,
    points: &[u8],
    rests: &[u64],
    before: &[u8],
    values: &[u8],
) -> bool
    requires k_bound { (k < 8) × (8 * (i + 1) ≤ length points.now) × (i < length rests.now) × (i < length before.now) × (i < length values.now) }
    requires rests { Rests k (i + 1) points.now rests.now }
    requires chained { Chained rests.now (i + 1) before.now }
    ensures { result ≡ some_below i (contrary_to k points.now values.now i) }
{
    let own = rests[i];
    let second = 8 * i;
    let mut next = before[i] as usize;
    while next != 0 {
        let j = next - 1;
        if rests[j] == own {
            if values[j] != values[i] {
                let first = 8 * j;
                if only_difference(&points[first..first + 8], &points[second..second + 8])
                    == Some(k)
                {
                    return true;
                }
            }
        }
        next = before[j] as usize;
    }
    false
}

// Whether two of the n points differ in variable k alone and have different values. Points whose keys without it leave the same remainder are a chain:
// `before` has 1 more than the place of the last such point before each, and `last` 1 more than that of the last of all; 0 if there is none.
fn has_pair(k: usize, n: usize, points: &[u8], values: &[u8]) -> bool
    requires k_bound { (k < 8) × (n ≤ 64) }
    requires n_in_bounds { (8 * n ≤ length points.now) × (n ≤ length values.now) }
    ensures { result ≡ pair_in k (valued_in n points.now values.now) }
{
    let mut rests = [0u64; sizes::POINTS];
    put_rests(k, n, points, &mut rests);
    let mut before = [0u8; sizes::POINTS];
    let mut last = [0u8; 251];
    for i in 0..n {
        let chain = (rests[i] % 251) as usize;
        before[i] = last[chain];
        if against_earlier(k, i, points, &rests, &before, values) {
            return true;
        }
        last[chain] = (i + 1) as u8;
    }
    false
}

// Whether some of the n points differ from the first in variable k.
fn varies(k: usize, n: usize, points: &[u8]) -> bool
    requires { (k < 8) × (8 * n ≤ length points.now) }
    ensures { result ≡ false → Constant k n points.now }
{
    for point in points[..8 * n].chunks_exact(8) {
        if point[k] != points[k] {
            return true;
        }
    }
    false
}

// Whether variable k is needed. One that is the same in all points is not.
fn is_needed(k: usize, n: usize, points: &[u8], values: &[u8]) -> bool
    requires k_bound { (k < 8) × (n ≤ 64) }
    requires n_in_bounds { (8 * n ≤ length points.now) × (n ≤ length values.now) }
    ensures { result ≡ pair_in k (valued_in n points.now values.now) }
{
    if varies(k, n, points) {
        return has_pair(k, n, points, values);
    }
    false
}

// The wiring list, in 8 bytes of zeros, and its length.
pub fn put_names(m: usize, n: usize, points: &[u8], values: &[u8], out: &mut [u8]) -> u8
    requires m_bound { (m ≤ 8) × (n ≤ 64) }
    requires n_in_bounds { (8 * n ≤ length points.now) × (n ≤ length values.now) }
    requires out_value { out.old ≡ replicate 8 0 }
    ensures value { result ≡ length (wiring_of m (groups 8 n points.now) (take n values.now)) }
    ensures out_after { out.new ≡ fill 8 (wiring_of m (groups 8 n points.now) (take n values.now)) }
{
    let mut count = 0;
    for k in 0..m {
        if is_needed(k, n, points, values) {
            out[count] = (k + 1) as u8;
            count += 1;
        }
    }
    count as u8
}
