// One stored case against each call that writes tables: the refusal, the counts and every byte that is left.
use crate::buffers::{back, front};
use crate::stored::Head;
use crate::tables::{Due, Left};
use specification::answers::Size;
use specification::refusals::Refusal;

// The refusal that is due by its number, or the counts that are.
fn is_due(got: Result<Size, Refusal>, refusal: u8, size: Size) -> bool {
    match got {
        Ok(found) => refusal == 0 && found == size,
        Err(found) => found.number() == refusal && size == Size { n: 0, r: 0 },
    }
}

// Drawing up: the refusal, the counts and the cancellations, which a refusal has none of, and every byte of the tables with the guards behind them.
pub fn drawn(head: Head, levels: &[i8], due: &Due) -> bool {
    let mut left = Left::new();
    let got = left.draw_up(head.settings, levels);
    let cancellations = got.map_or(0, |drawing| drawing.cancellations);
    let size = got.map(|drawing| Size {
        n: drawing.n,
        r: drawing.r,
    });
    cancellations == head.cancellations as u32
        && is_due(size, head.refusal, head.size)
        && left.hold_counts(due)
        && left.hold_basis(due)
}

// Adding the last point to the others answers the same as drawing up all, and leaves its counts.
fn add(head: Head, levels: &[i8], left: &mut Left, due: &Due) -> bool {
    let before = left.draw_up(head.settings, front(levels, head.before as usize));
    let (n, r) = before.map_or((0, 0), |drawing| (drawing.n as u64, drawing.r as u64));
    let last = back(levels, head.before as usize);
    let got = left.add_point(head.settings, n, r, last);
    is_due(got, 0, head.size) && left.hold_counts(due)
}

// Offering the last point once more counts it twice.
fn again(head: Head, levels: &[i8], left: &mut Left) -> bool {
    let last = back(levels, head.before as usize);
    let n = head.size.n as u64;
    let repeated = left.add_point(head.settings, n, head.size.r as u64, last);
    is_due(repeated, 0, head.size) && left.counts_last(head.size.n, 2)
}

// A point out of range is refused.
fn outside(head: Head, levels: &[i8], left: &mut Left) -> bool {
    let count = back(levels, head.before as usize).len();
    let n = head.size.n as u64;
    let beyond = front(&[127i8; 8], count);
    let large = left.add_point(head.settings, n, head.size.r as u64, beyond);
    is_due(large, 9, Size { n: 0, r: 0 })
}

// The four tables are those of drawing up all, whatever was offered after the last point.
pub fn added(head: Head, levels: &[i8], due: &Due) -> bool {
    let mut left = Left::new();
    add(head, levels, &mut left, due)
        && again(head, levels, &mut left)
        && outside(head, levels, &mut left)
        && left.hold_basis(due)
}
