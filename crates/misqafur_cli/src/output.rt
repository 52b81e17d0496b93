// Writing standard output: a write may take a part only.
ghost use Rattle.misqafur_cli.specs.Moving.{Advances};

use crate::retry;
use std::io;
use std::io::ErrorKind;
use std::rt::Clock;

// One write, which takes at least one byte or has failed.
fn write_once<W: io::Write>(output: &mut W, bytes: &[u8]) -> io::Result<usize>
    ensures { Advances result bytes.now }
{
    let put = output.write(bytes)?;
    if put == 0 {
        return Err(io::Error::from(ErrorKind::WriteZero));
    }
    Ok(put)
}

// Writes the first of the bytes, as many as one write takes, and at least one.
fn write_some<W: io::Write>(rt: &impl Clock, output: &mut W, bytes: &[u8]) -> io::Result<usize>
    ensures { Advances result bytes.now }
{
    let mut tries = retry::TRIES;
    loop {
        match write_once(output, bytes) {
            Ok(put) => return Ok(put),
            Err(error) => {
                tries = retry::tries_left(rt, error.kind(), tries);
                if tries == 0 {
                    return Err(error);
                }
            }
        }
    }
}

// Writes all the bytes, or those before an error.
pub fn write_sheet<W: io::Write>(rt: &impl Clock, output: &mut W, sheet: &[u8]) -> io::Result<()> {
    let mut at = 0;
    while at < sheet.len() {
        at += write_some(rt, output, &sheet[at..])?;
    }
    Ok(())
}
