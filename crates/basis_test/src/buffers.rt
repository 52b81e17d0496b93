// Parts and contents of buffers. A part that is too long is the whole buffer, so that no caller has to prove a bound.
use std::io;

pub fn front<T>(s: &[T], n: usize) -> &[T] {
    s.get(..n).unwrap_or(s)
}

pub fn back<T>(s: &[T], n: usize) -> &[T] {
    s.get(n..).unwrap_or(s)
}

fn front_mut(s: &mut [u8], n: usize) -> &mut [u8] {
    if n <= s.len() { &mut s[..n] } else { s }
}

// The next n bytes. Where fewer are left, what is missing stays as it was, and the case is held to that.
pub fn read_front<R: io::Read>(input: &mut R, buffer: &mut [u8], n: usize) {
    let _ = input.read_exact(front_mut(buffer, n));
}

// The next n bytes as levels of the same bits, at most 512.
pub fn read_levels<R: io::Read>(input: &mut R, levels: &mut [i8], n: usize) {
    let mut read = [0u8; 512];
    read_front(input, &mut read, n);
    for (level, byte) in levels.iter_mut().zip(front(&read, n)) {
        *level = byte.cast_signed();
    }
}

pub fn read_byte<R: io::Read>(input: &mut R) -> u8 {
    let mut byte = [0u8; 1];
    read_front(input, &mut byte, 1);
    byte[0]
}

// Whether a buffer begins with these bytes, and the guard of 8 bytes behind them is still 170.
pub fn holds(buffer: &[u8], want: &[u8]) -> bool {
    buffer.starts_with(want) && back(buffer, want.len()) == [170u8; 8].as_slice()
}
