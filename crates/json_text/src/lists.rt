// Lists of numbers into a lent buffer.
ghost use Rattle.std.specs.Prelude.{◌++◌, ◌≤◌, map, take};
ghost use Rattle.writing.specs.Appending.{Room, Put};
ghost use Rattle.writing.specs.Decimal.{decimal};
ghost use Rattle.json_text.specs.Writing.{before, list_text, rows_text};

use writing::appending::put_byte;

// The comma before every item but the first.
#[inline(always)]
fn put_before(out: &mut [u8], at: usize, i: usize) -> usize
    requires { Room at (before i) out.old }
    ensures { Put at (before i) out.old out.new result }
{
    if i == 0 {
        return at;
    }
    put_byte(out, at, b',')
}

// A number in one, two or three digits, with no call of itself: most of a text is numbers.
#[inline(always)]
pub(crate) fn put_number(out: &mut [u8], at: usize, v: u8) -> usize
    requires { Room at (decimal v) out.old }
    ensures { Put at (decimal v) out.old out.new result }
{
    if v < 10 {
        return put_byte(out, at, b'0' + v);
    }
    if v < 100 {
        let next = put_byte(out, at, b'0' + v / 10);
        return put_byte(out, next, b'0' + v % 10);
    }
    let next = put_byte(out, at, b'0' + v / 100);
    let last = put_byte(out, next, b'0' + v / 10 % 10);
    put_byte(out, last, b'0' + v % 10)
}

#[inline(always)]
fn put_item(out: &mut [u8], at: usize, i: usize, v: u8) -> usize
    requires { Room at (before i ++ decimal v) out.old }
    ensures { Put at (before i ++ decimal v) out.old out.new result }
{
    let next = put_before(out, at, i);
    put_number(out, next, v)
}

pub(crate) fn put_list(out: &mut [u8], at: usize, list: &[u8]) -> usize
    requires { Room at (list_text list.now) out.old }
    ensures { Put at (list_text list.now) out.old out.new result }
{
    let mut next = put_byte(out, at, b'[');
    for (i, v) in list.iter().enumerate() {
        next = put_item(out, next, i, *v);
    }
    put_byte(out, next, b']')
}

fn put_row(out: &mut [u8], at: usize, i: usize, row: &[u8]) -> usize
    requires { Room at (before i ++ list_text row.now) out.old }
    ensures { Put at (before i ++ list_text row.now) out.old out.new result }
{
    let next = put_before(out, at, i);
    put_list(out, next, row)
}

// The first m numbers of each row.
pub(crate) fn put_rows<const W: usize>(
    out: &mut [u8],
    at: usize,
    rows: &[[u8; W]],
    m: usize,
) -> usize
    requires m_le_width { m ≤ W }
    requires room { Room at (rows_text (map (take m) rows.now)) out.old }
    ensures { Put at (rows_text (map (take m) rows.now)) out.old out.new result }
{
    let mut next = put_byte(out, at, b'[');
    for (i, row) in rows.iter().enumerate() {
        next = put_row(out, next, i, &row[..m]);
    }
    put_byte(out, next, b']')
}
