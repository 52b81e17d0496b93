// Levels: whether they have residues, and the points of those, as places of 8 bytes in a table.
ghost use Rattle.std.specs.Prelude.{◌≡◌, map, ◌+◌, ◌*◌, ◌%◌, ◌≤◌, length, take, drop, replicate};
ghost use Rattle.residue.specs.Sizes.{states_size};
ghost use Rattle.residue.specs.Level.{residue_of};
ghost use Rattle.residue.specs.Layout.{fill, in_places, over};
ghost use Rattle.specification.specs.Levels.{residue_or0, in_range, residues};
ghost use Rattle.specification.specs.Tables.{points_in};

use residue::{arithmetic, level};
use specification::settings::Settings;

// Whether each level has a residue. The loop runs to the end, so that it is compiled to packed instructions.
pub fn in_range(p: u8, levels: &[i8]) -> bool
    ensures { result ≡ in_range p levels.now }
{
    let mut outside: u8 = 0;
    for i in 0..levels.len() {
        if p <= level::magnitude(levels[i]) {
            outside = 1;
        }
    }
    outside == 0
}

// The residue of a level, or 0 in the place of one.
fn residue_or_0(p: u8, level: i8) -> u8
    ensures { result ≡ residue_or0 (residue_of p level) }
{
    level::residue(p, level).unwrap_or(0)
}

// The residues of levels at the front of lent bytes.
pub fn put_residues(p: u8, levels: &[i8], to: &mut [u8])
    requires { length levels.now ≤ length to.old }
    ensures { to.new ≡ over (residues p levels.now) to.old }
{
    for i in 0..levels.len() {
        to[i] = residue_or_0(p, levels[i]);
    }
}

// The residues of the first m of 8 levels, and zeros behind them. All 8 are gone through: so they are compiled to packed instructions.
fn put_first(p: u8, m: usize, levels: &[i8], to: &mut [u8])
    requires { (m ≤ 8) × (length levels.now ≡ 8) × (length to.old ≡ 8) }
    ensures { to.new ≡ fill 8 (residues p (take m levels.now)) }
{
    for i in 0..8 {
        let mut x = residue_or_0(p, levels[i]);
        if m <= i {
            x = 0;
        }
        to[i] = x;
    }
}

// The point whose m levels begin at a place, in 8 bytes of zeros. Where 8 levels are left, some of them of later points, they are read at once.
pub(crate) fn put_point(p: u8, m: usize, from: usize, levels: &[i8], to: &mut [u8])
    requires { (m ≤ 8) × (from + m ≤ length levels.now) × (to.old ≡ replicate 8 0) }
    ensures { to.new ≡ fill 8 (take m (drop from (residues p levels.now))) }
{
    if levels.len() - from < 8 {
        put_residues(p, &levels[from..from + m], to);
        return;
    }
    put_first(p, m, &levels[from..from + 8], to);
}

// The m coordinates of one point, reduced.
fn put_reduced(p: u8, from: &[u8], to: &mut [u8])
    requires le_p { (2 ≤ p) × (p ≤ 61) }
    requires from_in_bounds { length from.now ≤ length to.old }
    ensures { to.new ≡ over (map (λ x. x % p) from.now) to.old }
{
    for i in 0..from.len() {
        to[i] = arithmetic::reduce(p, from[i]);
    }
}

// The n points of a table, each cut to its m coordinates and reduced, in a table of zeros.
pub fn read_points(settings: Settings, n: usize, states: &[u8], points: &mut [u8])
    requires le_modulus { (2 ≤ settings.modulus) × (settings.modulus ≤ 61) × (settings.variables ≤ 8) }
    requires n_bound { (n ≤ 64) × (states_size ≤ length states.now) }
    requires points_value { points.old ≡ replicate states_size 0 }
    ensures { points.new ≡ fill states_size (in_places 8 (points_in settings n states.now)) }
{
    let p = settings.modulus as u8;
    let m = settings.variables as usize;
    for i in 0..n {
        let place = 8 * i;
        put_reduced(p, &states[place..place + m], &mut points[place..place + 8]);
    }
}
