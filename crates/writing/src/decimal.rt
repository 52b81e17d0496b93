// Numbers written in decimal.
ghost use Rattle.writing.specs.Appending.{Room, Put};
ghost use Rattle.writing.specs.Decimal.{decimal};

use crate::appending::put_byte;

// A number in decimal.
pub fn put_digits(out: &mut [u8], at: usize, n: u16) -> usize
    requires { Room at (decimal n) out.old }
    ensures { Put at (decimal n) out.old out.new result }
{
    if n < 10 {
        return put_byte(out, at, b'0' + n as u8);
    }
    let next = put_digits(out, at, n / 10);
    put_byte(out, next, b'0' + (n % 10) as u8)
}
