// Holds drawing up, adding, interpolants, wiring lists and remainders to stored cases (tools/basis_cases.py): what Singular and Macaulay2 computed for lists of
// points, and lists that are refused. The cases are those of standard input, or where it has none those of the file `cases`.
#![tactic(auto)]

mod answered;
mod buffers;
mod counts;
mod stored;
mod tables;
mod written;

use crate::counts::Counts;
use std::fs::File;
use std::io;
use std::rt::Files;

// The cases of the file `cases`.
fn run_file(rt: &(impl Files + Print + Eprint), counts: &mut Counts) -> io::Result<()> {
    match File::open(rt, "cases") {
        Ok(mut file) => stored::run(rt, &mut file, counts),
        Err(error) => eprintln!(rt; "cases: {error}"),
    }
}

fn main(rt: HostRuntime) -> io::Result<()> {
    let mut counts = Counts::new();
    stored::run(&rt, &mut rt.stdin(), &mut counts)?;
    if counts.is_empty() {
        run_file(&rt, &mut counts)?;
    }
    counts.print(&rt)
}
