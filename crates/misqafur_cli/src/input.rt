// Reading standard input: its end, an error and bytes that are still to come are told apart.
ghost use Rattle.misqafur_cli.specs.Moving.{Fits};

use crate::retry;
use std::io;
use std::rt::Clock;

// The next bytes of the input, at the front of the buffer: as many as one read gives, and none at the end.
fn read_some<R: io::Read>(rt: &impl Clock, input: &mut R, buffer: &mut [u8]) -> io::Result<usize>
    ensures { Fits result buffer.new }
{
    let mut tries = retry::TRIES;
    loop {
        match input.read(buffer) {
            Ok(got) => return Ok(got),
            Err(error) => {
                tries = retry::tries_left(rt, error.kind(), tries);
                if tries == 0 {
                    return Err(error);
                }
            }
        }
    }
}

// The input up to its end, or as much of it as the buffer holds. What came before an error is not answered, so that nothing is taken for the whole text.
pub fn read_text<R: io::Read>(
    rt: &impl Clock,
    input: &mut R,
    buffer: &mut [u8],
) -> io::Result<usize>
    ensures { Fits result buffer.new }
{
    let mut at = 0;
    while at < buffer.len() {
        let got = read_some(rt, input, &mut buffer[at..])?;
        if got == 0 {
            break;
        }
        at += got;
    }
    Ok(at)
}
