// The rows of a lent table.
ghost use Rattle.std.specs.Prelude.{◌≡◌, ◌*◌, ◌≤◌, ◌<◌, length};
ghost use Rattle.residue.specs.Layout.{groups};

// The first k rows of W bytes each.
pub fn rows<const W: usize>(k: usize, table: &[u8]) -> &[[u8; W]]
    requires width { 0 < W }
    requires room { W * k ≤ length table.now }
    ensures value { result.now ≡ groups W k table.now }
    ensures len { length result.now ≡ k }
{
    let (rows, _) = table[..W * k].as_chunks::<W>();
    rows
}
