// The members of a sheet's text.
ghost use Rattle.std.specs.Prelude.{◌++◌, ◌≤◌, map, take};
ghost use Rattle.writing.specs.Appending.{Room, Put};
ghost use Rattle.writing.specs.Decimal.{decimal};
ghost use Rattle.json_text.specs.Writing.{list_text, rows_text};

use crate::lists::{put_list, put_number, put_rows};
use writing::appending::put_word;

// A name and a number, a list, or rows behind it.
pub(crate) fn put_number_member(out: &mut [u8], at: usize, word: &[u8], v: u8) -> usize
    requires { Room at (word.now ++ decimal v) out.old }
    ensures { Put at (word.now ++ decimal v) out.old out.new result }
{
    let next = put_word(out, at, word);
    put_number(out, next, v)
}

pub(crate) fn put_list_member(out: &mut [u8], at: usize, word: &[u8], list: &[u8]) -> usize
    requires { Room at (word.now ++ list_text list.now) out.old }
    ensures { Put at (word.now ++ list_text list.now) out.old out.new result }
{
    let next = put_word(out, at, word);
    put_list(out, next, list)
}

pub(crate) fn put_rows_member<const W: usize>(
    out: &mut [u8],
    at: usize,
    word: &[u8],
    rows: &[[u8; W]],
    m: usize,
) -> usize
    requires m_le_width { m ≤ W }
    requires room { Room at (word.now ++ rows_text (map (take m) rows.now)) out.old }
    ensures { Put at (word.now ++ rows_text (map (take m) rows.now)) out.old out.new result }
{
    let next = put_word(out, at, word);
    put_rows(out, next, rows, m)
}
