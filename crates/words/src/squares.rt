// Where the squares of the variables come among the monomials without squares.
ghost use Rattle.std.specs.Prelude.{◌≡◌, ◌≤◌, length};
ghost use Rattle.words.specs.Sequences.{square_comes};

// Whether the last of the squares that are left comes before what stands at a place: no more monomials without squares are below it than stand before that.
pub fn square_comes(left: usize, at: usize, before: &[u16]) -> bool
    requires { (left ≤ 8) × (length before.now ≡ 8) }
    ensures { result ≡ square_comes left at before.now }
{
    left > 0 && usize::from(before[left - 1]) <= at
}
