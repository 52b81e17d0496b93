// Reads a text from standard input and prints its refusal, or its basis, interpolant and wiring list. One byte more than the longest text is read, so that a
// longer one is told. Where reading fails, nothing is printed.
#![tactic(auto)]

mod input;
mod output;
mod retry;
mod telling;

use std::io;

fn main(rt: HostRuntime) -> io::Result<()> {
    let mut text = [0u8; 16385];
    let mut out = [0u8; 131072];
    let got = match input::read_text(&rt, &mut rt.stdin(), &mut text) {
        Ok(got) => got,
        Err(error) => return telling::tell(&rt, "reading standard input", error),
    };
    let n = printing::text::print_text(&text[..got], &mut out);
    match output::write_sheet(&rt, &mut rt.stdout(), &out[..n]) {
        Ok(()) => Ok(()),
        Err(error) => telling::tell(&rt, "writing standard output", error),
    }
}
