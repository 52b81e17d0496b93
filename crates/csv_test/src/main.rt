// Runs every stored text through the text reader, and holds the answer and the lent buffers to what is stored with it (tools/text_cases.py). The texts are
// those of standard input, or where none of them passes those of the file `texts`.
#![tactic(auto)]

use comma_text::reading::{Read, read_text};
use specification::refusals::Fault;
use std::fs::File;
use std::io;
use std::rt::Files;

// The byte that every lent byte is before the reader comes.
const FRESH: u8 = 170;

// What stands in place of a refusal's number for a case that cannot be read: it lends more than there is, or its text is longer than the room for one.
const UNREAD: u8 = 255;

// The lent buffers, each a few bytes longer than what the reader writes to it.
#[derive(Drop)]
struct Buffers {
    states: [u8; 520],
    values: [u8; 70],
    counts: [u8; 68],
    weights: [u8; 12],
}

// What a case lends: so many bytes of each buffer.
#[derive(Clone, Copy)]
struct Lent {
    states: usize,
    values: usize,
    counts: usize,
    weights: usize,
}

// What must be answered: a refusal's number with its record and zeros, or 0 and 0 with what is read.
#[derive(Clone, Copy)]
struct Wanted {
    refusal: u8,
    at: u16,
    read: Read,
}

impl Wanted {
    fn is_answer(&self, got: Option<Result<Read, Fault>>) -> bool {
        let nothing = Read {
            modulus: 0,
            variables: 0,
            order: 0,
            n: 0,
        };
        match got {
            Some(Ok(read)) => self.refusal == 0 && self.at == 0 && self.read == read,
            Some(Err(fault)) => {
                self.refusal == fault.refusal.number()
                    && self.at == fault.at
                    && self.read == nothing
            }
            None => self.refusal == UNREAD && self.at == 0 && self.read == nothing,
        }
    }
}

// The first bytes are these, and those behind them are still as they were.
fn holds(buffer: &[u8], front: &[u8], behind: &[u8]) -> bool {
    buffer
        .strip_prefix(front)
        .is_some_and(|rest| rest == behind)
}

// The next n bytes. Where fewer are left, what is missing stays as it was, and the case is held to that.
fn read_front<R: io::Read>(input: &mut R, buffer: &mut [u8], n: usize) {
    if let Some(front) = buffer.get_mut(..n) {
        let _ = input.read_exact(front);
    }
}

impl Buffers {
    fn fresh() -> Buffers {
        Buffers {
            states: [FRESH; 520],
            values: [FRESH; 70],
            counts: [FRESH; 68],
            weights: [FRESH; 12],
        }
    }

    // The reader over the first bytes of each buffer; nothing where there is no text or a case lends more than there is.
    fn read(&mut self, text: Option<&[u8]>, lent: Lent) -> Option<Result<Read, Fault>> {
        Some(read_text(
            text?,
            self.states.get_mut(..lent.states)?,
            self.values.get_mut(..lent.values)?,
            self.counts.get_mut(..lent.counts)?,
            self.weights.get_mut(..lent.weights)?,
        ))
    }

    // An accepted text leaves n points, values and counts, and the weights, zeros behind them, and nothing beyond the sizes.
    fn are_filled<R: io::Read>(&self, input: &mut R, n: usize) -> bool {
        if 64 < n {
            return false;
        }
        let mut points = [0u8; 512];
        read_front(input, &mut points, 8 * n);
        let mut residues = [0u8; 64];
        read_front(input, &mut residues, n);
        let mut times = [0u8; 64];
        read_front(input, &mut times, n);
        let mut eight = [0u8; 8];
        read_front(input, &mut eight, 8);
        holds(&self.states, &points, &[FRESH; 8])
            && holds(&self.values, &residues, &[FRESH; 6])
            && holds(&self.counts, &times, &[FRESH; 4])
            && holds(&self.weights, &eight, &[FRESH; 4])
    }

    // A refused text leaves the buffers as they were.
    fn are_untouched(&self) -> bool {
        self.states == [FRESH; 520]
            && self.values == [FRESH; 70]
            && self.counts == [FRESH; 68]
            && self.weights == [FRESH; 12]
    }
}

// One text of this length, what is lent for it, and what must be answered and left: whether it passed.
fn run_text<R: io::Read>(input: &mut R, length: usize, lent: Lent, want: Wanted) -> bool {
    let mut text = [0u8; 70000];
    let mut buffers = Buffers::fresh();
    read_front(input, &mut text, length);
    if !want.is_answer(buffers.read(text.get(..length), lent)) {
        return false;
    }
    if want.refusal == 0 {
        buffers.are_filled(input, want.read.n as usize)
    } else {
        buffers.are_untouched()
    }
}

// Whether the next case passed; nothing where there is none left.
fn run_case<R: io::Read>(input: &mut R) -> Option<bool> {
    let mut head = [0u8; 16];
    input.read_exact(&mut head).ok()?;
    let length = u32::from_le_bytes([head[0], head[1], head[2], 0]) as usize;
    let lent = Lent {
        states: u16::from_le_bytes([head[3], head[4]]) as usize,
        values: usize::from(head[5]),
        counts: usize::from(head[6]),
        weights: usize::from(head[7]),
    };
    let want = Wanted {
        refusal: head[8],
        at: u16::from_le_bytes([head[9], head[10]]),
        read: Read {
            modulus: u16::from_le_bytes([head[11], head[12]]),
            variables: head[13],
            order: head[14],
            n: head[15],
        },
    };
    Some(run_text(input, length, lent, want))
}

// A case that does not pass is printed by its place.
fn tell(rt: &impl Print, i: u64) -> io::Result<()> {
    println!(rt; "failed {i}")
}

// All cases, and how many passed. A proved loop has to end, so it counts its turns.
fn run_all<R: io::Read>(rt: &impl Print, input: &mut R) -> io::Result<u64> {
    let mut passed: u64 = 0;
    for i in 0..65536u64 {
        match run_case(input) {
            None => return Ok(passed),
            Some(true) => passed += 1,
            Some(false) => tell(rt, i)?,
        }
    }
    Ok(passed)
}

// The cases of the file `texts`.
fn run_file(rt: &(impl Files + Print + Eprint)) -> io::Result<u64> {
    match File::open(rt, "texts") {
        Ok(mut file) => run_all(rt, &mut file),
        Err(error) => {
            eprintln!(rt; "texts: {error}")?;
            Ok(0)
        }
    }
}

fn main(rt: HostRuntime) -> io::Result<()> {
    let mut passed = run_all(&rt, &mut rt.stdin())?;
    if passed == 0 {
        passed = run_file(&rt)?;
    }
    println!(rt; "{passed} passed")
}
