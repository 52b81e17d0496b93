// The stored cases, one after the other.
use crate::buffers::{front, read_front, read_levels};
use crate::counts::{Counts, Part};
use crate::tables::Due;
use crate::{answered, written};
use specification::answers::Size;
use specification::settings::Settings;
use std::io;

// The head of a case: settings, the refusal due, counts, and how many bytes of it follow.
#[derive(Clone, Copy)]
pub struct Head {
    pub settings: Settings,
    pub refusal: u8,
    pub size: Size,
    pub levels: u16,
    pub before: u16,
    pub points: u16,
    pub leads: u16,
    pub coefficients: u16,
    pub cancellations: u16,
}

// The next head, if there is one. The stored cases have no weights.
fn read_head<R: io::Read>(input: &mut R) -> Option<Head> {
    let mut head = [0u8; 20];
    input.read_exact(&mut head).ok()?;
    Some(Head {
        settings: Settings {
            modulus: u64::from(u16::from_le_bytes([head[0], head[1]])),
            variables: u64::from(head[2]),
            order: u64::from(head[3]),
            weights: [0; 8],
        },
        refusal: head[4],
        size: Size {
            n: head[5],
            r: u16::from_le_bytes([head[6], head[7]]),
        },
        levels: u16::from_le_bytes([head[8], head[9]]),
        before: u16::from_le_bytes([head[10], head[11]]),
        points: u16::from_le_bytes([head[12], head[13]]),
        leads: u16::from_le_bytes([head[14], head[15]]),
        coefficients: u16::from_le_bytes([head[16], head[17]]),
        cancellations: u16::from_le_bytes([head[18], head[19]]),
    })
}

// The tables of a case that is accepted.
fn read_tables<R: io::Read>(input: &mut R, head: Head) -> Due {
    let mut due = Due::filled(0);
    read_front(input, &mut due.states, head.points as usize);
    read_front(input, &mut due.standard, head.points as usize);
    read_front(input, &mut due.leads, head.leads as usize);
    read_front(input, &mut due.coefficients, head.coefficients as usize);
    read_front(input, &mut due.counts, head.size.n as usize);
    due
}

// Tries the calls on the tables of a case that is accepted; the answers due follow in the file.
fn run_basis<R: io::Read>(input: &mut R, head: Head, levels: &[i8], counts: &mut Counts) {
    let n = head.size.n as usize;
    let mut all_values = [0i8; 64];
    read_levels(input, &mut all_values, n);
    let values = front(&all_values, n);
    let due = read_tables(input, head);
    counts.count(Part::Drawn, written::drawn(head, levels, &due));
    if n != 0 {
        counts.count(Part::Added, written::added(head, levels, &due));
    }
    let interpolated = answered::interpolated(input, head, &due, values);
    counts.count(Part::Interpolated, interpolated);
    counts.count(Part::Wired, answered::wired(input, head, &due, values));
    counts.count(Part::Reduced, answered::reduced(input, head, &due));
    counts.count(Part::Reduced, answered::reduced(input, head, &due));
}

// A list of points that is refused changes nothing.
fn run_case<R: io::Read>(input: &mut R, head: Head, counts: &mut Counts) {
    let count = head.levels as usize;
    let mut all_levels = [0i8; 512];
    read_levels(input, &mut all_levels, count);
    let levels = front(&all_levels, count);
    if head.refusal == 0 {
        run_basis(input, head, levels, counts);
    } else {
        let unchanged = written::drawn(head, levels, &Due::filled(170));
        counts.count(Part::Refused, unchanged);
    }
}

// All cases of an input. A proved loop has to end, so it counts its turns.
pub fn run<R: io::Read>(rt: &impl Print, input: &mut R, counts: &mut Counts) -> io::Result<()> {
    for place in 0..65536u64 {
        let Some(head) = read_head(input) else {
            break;
        };
        let before = counts.failures();
        run_case(input, head, counts);
        if counts.failures() != before {
            println!(rt; "failed at {place}")?;
        }
    }
    Ok(())
}
