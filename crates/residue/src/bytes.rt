// Lent bytes: comparing, copying and clearing them.
ghost use Rattle.std.specs.Prelude.{◌≡◌, ◌<◌, ◌≤◌, length, replicate};
ghost use Rattle.residue.specs.Lists.{same_list, all_zero};
ghost use Rattle.residue.specs.Layout.{over, begins};

// Whether two slices are equal.
pub fn same(a: &[u8], b: &[u8]) -> bool
    ensures { result ≡ same_list a.now b.now }
{
    a == b
}

// Whether the lent table begins with these bytes.
pub fn begins(new: &[u8], table: &[u8]) -> bool
    requires { length new.now ≤ length table.now }
    ensures { result ≡ begins new.now table.now }
{
    table.starts_with(new)
}

// Copies bytes to the front of a lent table. Byte by byte, so that a row that is at hand in vector registers stays there: a block copy goes through memory.
pub fn copy(from: &[u8], to: &mut [u8])
    requires { length from.now ≤ length to.old }
    ensures { to.new ≡ over from.now to.old }
{
    for (i, x) in from.iter().enumerate() {
        to[i] = *x;
    }
}

// Clears a lent table: every byte becomes 0.
pub fn clear(to: &mut [u8])
    ensures { to.new ≡ replicate (length to.old) 0 }
{
    to.fill(0);
}

// Whether all bytes are 0. The largest is sought to the end, so that this is compiled to packed instructions, as a search for one that is not 0 is not.
pub fn all_zero(a: &[u8]) -> bool
    ensures { result ≡ all_zero a.now }
{
    a.iter().fold(0u8, |largest, x| largest.max(*x)) == 0
}
