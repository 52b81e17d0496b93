// Bytes into a lent buffer: each function writes from a place on, and answers the place behind what it wrote.
ghost use Rattle.std.specs.Prelude.{[], ◌∷◌};
ghost use Rattle.writing.specs.Appending.{Room, Put};

#[inline(always)]
pub fn put_byte(out: &mut [u8], at: usize, b: u8) -> usize
    requires { Room at (b ∷ []) out.old }
    ensures { Put at (b ∷ []) out.old out.new result }
{
    out[at] = b;
    at + 1
}

pub fn put_word(out: &mut [u8], at: usize, word: &[u8]) -> usize
    requires { Room at word.now out.old }
    ensures { Put at word.now out.old out.new result }
{
    let end = at + word.len();
    out[at..end].copy_from_slice(word);
    end
}
