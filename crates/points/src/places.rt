// Where a point stands in a table, and whether one repeats.
ghost use Rattle.std.specs.Prelude.{◌≡◌, ◌+◌, ◌*◌, ◌≤◌, length};
ghost use Rattle.residue.specs.Layout.{groups};
ghost use Rattle.residue.specs.Lists.{key_of};
ghost use Rattle.specification.specs.Levels.{is_among, no_repeat};
ghost use Rattle.specification.specs.Counted.{place_in};

// The number whose digits to the base 256 the 8 bytes of a point are. They are read one by one: so it is compiled to one load, as a copy of them is not.
#[tactic(auto, unfolding(residue::specs::Lists::key_of))]
pub fn key(point: &[u8]) -> u64
    requires { length point.now ≡ 8 }
    ensures { result ≡ key_of 8 point.now }
{
    u64::from_be_bytes([
        point[0], point[1], point[2], point[3], point[4], point[5], point[6], point[7],
    ])
}

// Where a point first stands among the first n of a table, or n.
pub fn place_of(n: usize, states: &[u8], point: &[u8]) -> usize
    requires n_in_bounds { 8 * n ≤ length states.now }
    requires point_len { length point.now ≡ 8 }
    ensures { result ≡ place_in point.now (groups 8 n states.now) }
{
    let own = key(point);
    states[..8 * n]
        .chunks_exact(8)
        .position(|other| own == key(other))
        .unwrap_or(n)
}

// Whether a point is among the first n of a table.
fn is_among(n: usize, states: &[u8], point: &[u8]) -> bool
    requires n_in_bounds { 8 * n ≤ length states.now }
    requires point_len { length point.now ≡ 8 }
    ensures { result ≡ is_among point.now (groups 8 n states.now) }
{
    place_of(n, states, point) < n
}

// Whether no point of the first n of a table equals an earlier one.
pub fn no_repeat(n: usize, states: &[u8]) -> bool
    requires { 8 * n ≤ length states.now }
    ensures { result ≡ no_repeat (groups 8 n states.now) }
{
    for i in 0..n {
        let place = 8 * i;
        let behind = place + 8;
        if is_among(n - i - 1, &states[behind..], &states[place..behind]) {
            return false;
        }
    }
    true
}
