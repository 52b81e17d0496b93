// One stored case against each call that answers from tables: the refusal and every byte that is left.
use crate::buffers::{back, front, holds, read_byte, read_front, read_levels};
use crate::stored::Head;
use crate::tables::Due;
use queries::remainders::remainder;
use queries::values::{interpolate, wiring};
use std::io;

// The interpolant: the next bytes of the case.
pub fn interpolated<R: io::Read>(input: &mut R, head: Head, due: &Due, values: &[i8]) -> bool {
    let mut want = [0u8; 64];
    read_front(input, &mut want, head.size.n as usize);
    let mut out = [170u8; 72];
    let n = head.size.n as u64;
    let r = head.size.r as u64;
    interpolate(head.settings, n, r, due.lent(), values, &mut out).is_ok() && holds(&out, &want)
}

// Strikes a listed variable, behind the last one, out of those that are due; a place past the list's end holds 0.
fn strike(listed: bool, last: u8, name: u8, variables: &mut [u8; 8]) -> bool {
    if !listed {
        return name == 0;
    }
    if name <= last || 8 < name {
        return false;
    }
    let k = name as usize - 1;
    let due = variables[k];
    variables[k] = 0;
    due == 1
}

// Whether the names of a list are those of variables that are due, increasing.
fn names(count: u8, list: &[u8], variables: &mut [u8; 8]) -> bool {
    let mut last: u8 = 0;
    for (i, name) in list.iter().enumerate() {
        if !strike(i < count as usize, last, *name, variables) {
            return false;
        }
        last = *name;
    }
    true
}

// The wiring list: the next bytes say which variables it has.
pub fn wired<R: io::Read>(input: &mut R, head: Head, due: &Due, values: &[i8]) -> bool {
    let mut variables = [0u8; 8];
    read_front(input, &mut variables, 8);
    let mut out = [170u8; 16];
    let n = head.size.n as u64;
    let r = head.size.r as u64;
    let Ok(count) = wiring(head.settings, n, r, due.lent(), values, &mut out) else {
        return false;
    };
    back(&out, 8) == [170u8; 8].as_slice()
        && names(count, front(&out, 8), &mut variables)
        && variables == [0u8; 8]
}

// A polynomial's remainder: the next bytes.
pub fn reduced<R: io::Read>(input: &mut R, head: Head, due: &Due) -> bool {
    let count = read_byte(input) as usize;
    let size = 8 * count;
    let mut terms = [0i8; 256];
    read_levels(input, &mut terms, count);
    let mut exponents = [0u8; 2048];
    read_front(input, &mut exponents, size);
    let mut want = [0u8; 64];
    read_front(input, &mut want, head.size.n as usize);
    let mut out = [170u8; 72];
    remainder(
        head.settings,
        head.size.n as u64,
        head.size.r as u64,
        due.lent(),
        front(&terms, count),
        front(&exponents, size),
        &mut out,
    )
    .is_ok()
        && holds(&out, &want)
}
