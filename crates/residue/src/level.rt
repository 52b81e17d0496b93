// The moduli, and the residues of levels.
ghost use Rattle.std.specs.Prelude.{◌≡◌, nat_abs};
ghost use Rattle.residue.specs.Modulus.{is_modulus};
ghost use Rattle.residue.specs.Level.{residue_of, signed_of};

// The moduli, in the order in which the table of inverses has them.
pub(crate) const PRIMES: [u8; 18] = [
    2, 3, 5, 7, 11, 13, 17, 19, 23, 29, 31, 37, 41, 43, 47, 53, 59, 61,
];

// Whether p is one of the 18 primes.
pub fn is_modulus(p: u64) -> bool
    ensures { result ≡ is_modulus p }
{
    PRIMES.iter().any(|prime| p == u64::from(*prime))
}

// How far a level is from 0. It is widened before it is negated: -128 has no negation of its own width. The requirement names this form, the negation and the
// checked widening (docs/SCOPE.md, 'Expected form in each place').
pub fn magnitude(level: i8) -> u8
    ensures { result ≡ nat_abs level }
{
    if level < 0 {
        (-(level as i16)) as u8
    } else {
        level as u8
    }
}

// The residue of a level, where it has one. The sign is looked at last, so that it costs no branch.
pub fn residue(p: u8, level: i8) -> Option<u8>
    ensures { result ≡ residue_of p level }
{
    let size = magnitude(level);
    if p <= size {
        None
    } else if level < 0 {
        Some(p - size)
    } else {
        Some(size)
    }
}

// The signed byte of the same bits.
pub fn signed(b: u8) -> i8
    ensures { result ≡ signed_of b }
{
    b.cast_signed()
}
