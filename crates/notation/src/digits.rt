// Numbers in decimal, read.
ghost use Rattle.std.specs.Prelude.{◌≡◌};
ghost use Rattle.notation.specs.Said.{leading_of, LeadingRead};

// The number that the digits at the front write, and how many they are.
#[derive(Clone, Copy)]
pub struct Leading {
    pub size: u16,
    pub count: usize,
}

#[inline(always)]
fn leading_of(size: u16, count: usize) -> Option<Leading>
    ensures { result ≡ leading_of size count }
{
    if count == 0 {
        return None;
    }
    Some(Leading { size, count })
}

// The one to three digits at the front, which no other follows: found and read at once.
#[inline(always)]
pub fn read_leading(content: &[u8]) -> Option<Leading>
    ensures { LeadingRead content.now result }
{
    let mut size = 0;
    for (i, b) in content.iter().enumerate() {
        if !b.is_ascii_digit() {
            return leading_of(size, i);
        }
        if i == 3 {
            return None;
        }
        size = 10 * size + u16::from(b - b'0');
    }
    leading_of(size, content.len())
}
