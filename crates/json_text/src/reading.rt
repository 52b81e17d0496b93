// Words, numbers and lists of numbers read from a place of a text on.
ghost use Rattle.std.specs.Prelude.{◌≡◌, List, [], ◌∷◌, ◌++◌, ℕ, ◌≤◌, ◌*◌, length, set, replicate};
ghost use Rattle.json_text.specs.Places.{here, exactly_at, number_at, list_at, rows_at};
ghost use Rattle.json_text.specs.Said.{word_said, number_said, ListRead, RowRead, RowsRead, common_length};

use notation::digits;
use notation::digits::Leading;

// This byte stands at the place.
pub fn is_here(text: &[u8], at: usize, b: u8) -> bool
    ensures { result ≡ here b text.now at }
{
    text.get(at) == Some(&b)
}

// The place behind the word, if it stands there.
pub fn read_word(text: &[u8], at: usize, word: &[u8]) -> Option<usize>
    requires { at ≤ length text.now }
    ensures { word_said result ≡ exactly_at word.now text.now at }
{
    if !text[at..].starts_with(word) {
        return None;
    }
    Some(at + word.len())
}

// A number, and the place behind it.
#[derive(Drop)]
pub struct Number {
    pub value: u8,
    pub next: usize,
}

pub fn read_number(text: &[u8], at: usize) -> Option<Number>
    requires { at ≤ length text.now }
    ensures { number_said result ≡ number_at text.now at }
{
    let Leading { size, count } = digits::read_leading(&text[at..])?;
    let value = u8::try_from(size).ok()?;
    if count > 1 && is_here(text, at, b'0') {
        return None;
    }
    Some(Number {
        value,
        next: at + count,
    })
}

// A number at a place of the buffer, where there is room.
fn store(out: &mut [u8], at: usize, v: u8)
    ensures { out.new ≡ set out.old at v }
{
    if at < out.len() {
        out[at] = v;
    }
}

// How many numbers there are, and the place behind them; as many as there is room for are stored.
#[derive(Drop)]
pub struct Numbers {
    pub count: usize,
    pub next: usize,
}

pub fn read_list(text: &[u8], at: usize, out: &mut [u8]) -> Option<Numbers>
    requires { at ≤ length text.now }
    ensures { ListRead (list_at text.now at) out.old out.new result }
{
    if !is_here(text, at, b'[') {
        return None;
    }
    let mut i = at + 1;
    if is_here(text, i, b']') {
        return Some(Numbers {
            count: 0,
            next: i + 1,
        });
    }
    let mut count = 0;
    loop {
        let Number { value, next } = read_number(text, i)?;
        store(out, count, value);
        count += 1;
        if is_here(text, next, b']') {
            return Some(Numbers {
                count,
                next: next + 1,
            });
        }
        if !is_here(text, next, b',') {
            return None;
        }
        i = next + 1;
    }
}

// A row of a table of so many places; where there is none for it, it is read and not stored.
fn read_row(
    text: &[u8],
    at: usize,
    width: usize,
    places: usize,
    row: usize,
    out: &mut [u8],
) -> Option<Numbers>
    requires at_in_bounds { at ≤ length text.now }
    requires places_value { width * places ≡ length out.old }
    ensures { RowRead width places row (list_at text.now at) out.old out.new result }
{
    if row < places {
        let from = width * row;
        return read_list(text, at, &mut out[from..from + width]);
    }
    read_list(text, at, &mut [])
}

// The length that all rows have in common, behind one row more of this length.
fn common_length(rows: usize, columns: Option<usize>, size: usize) -> Option<usize>
    ensures { (L : List (List ℕ)) (l : List ℕ) → rows ≡ length L → columns ≡ common_length L → size ≡ length l → result ≡ common_length (L ++ (l ∷ [])) }
{
    if rows == 0 || columns == Some(size) {
        return Some(size);
    }
    None
}

// How many rows there are, and how long all of them are, if they are equally long.
#[derive(Drop)]
pub struct Lengths {
    pub count: usize,
    pub columns: Option<usize>,
}

// What rows there are, and the place behind them; as many as there is room for are stored.
#[derive(Drop)]
pub struct Rows {
    pub lengths: Lengths,
    pub next: usize,
}

pub fn read_rows(
    text: &[u8],
    at: usize,
    width: usize,
    places: usize,
    out: &mut [u8],
) -> Option<Rows>
    requires at_in_bounds { at ≤ length text.now }
    requires places_value { width * places ≡ length out.old }
    requires out_value { out.old ≡ replicate (length out.old) 0 }
    ensures { RowsRead width places (rows_at text.now at) out.new result }
{
    if !is_here(text, at, b'[') {
        return None;
    }
    let mut i = at + 1;
    let mut count = 0;
    let mut columns = Some(0);
    if is_here(text, i, b']') {
        let lengths = Lengths { count, columns };
        return Some(Rows {
            lengths,
            next: i + 1,
        });
    }
    loop {
        let Numbers { count: size, next } = read_row(text, i, width, places, count, out)?;
        columns = common_length(count, columns, size);
        count += 1;
        if is_here(text, next, b']') {
            let lengths = Lengths { count, columns };
            return Some(Rows {
                lengths,
                next: next + 1,
            });
        }
        if !is_here(text, next, b',') {
            return None;
        }
        i = next + 1;
    }
}
