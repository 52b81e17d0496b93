// The fields of a text, by their places.
ghost use Rattle.std.specs.Prelude.{◌≡◌, false, ◌+◌, ◌≤◌, length, drop};
ghost use Rattle.notation.specs.Fields.{is_plain, front, field_of, quoted};
ghost use Rattle.notation.specs.Spans.{closing, opening, content_length, EndRead, SpanRead};

// The bytes that mean something.
const QUOTE: u8 = 34;

const COMMA: u8 = 44;

const LF: u8 = 10;

const CR: u8 = 13;

// A byte that an unquoted field may hold.
fn is_plain(b: u8) -> bool
    ensures { result ≡ is_plain b }
{
    !matches!(b, COMMA | QUOTE | CR | LF)
}

// Where the bytes from `at` on that an unquoted field may hold end.
fn plain_end(text: &[u8], at: usize) -> usize
    requires { at ≤ length text.now }
    ensures { result ≡ at + front is_plain (drop at text.now) }
{
    let rest = &text[at..];
    at + rest
        .iter()
        .position(|b| !is_plain(*b))
        .unwrap_or(rest.len())
}

// Where the quote that closes a quoted field stands, its content beginning at `at`; the text's end where there is none.
fn quote_end(text: &[u8], at: usize) -> usize
    requires { at ≤ length text.now }
    ensures { result ≡ at + closing (drop at text.now) }
{
    let mut i = at;
    while i < text.len() {
        match &text[i..] {
            [QUOTE, rest @ ..] => {
                let [QUOTE, ..] = rest else {
                    return i;
                };
                i += 2;
            }
            _ => i += 1,
        }
    }
    i
}

// What stands behind a field's content: another field of its record follows or not, and where the text goes on.
#[derive(Clone, Copy)]
pub struct End {
    pub more: bool,
    pub next: usize,
}

#[inline(always)]
fn read_end(text: &[u8], at: usize) -> Option<End>
    requires { at ≤ length text.now }
    ensures { EndRead text.now at false result }
{
    let [first, rest @ ..] = &text[at..] else {
        return Some(End {
            more: false,
            next: at,
        });
    };
    match *first {
        COMMA => Some(End {
            more: true,
            next: at + 1,
        }),
        LF => Some(End {
            more: false,
            next: at + 1,
        }),
        CR => {
            let [LF, ..] = rest else {
                return None;
            };
            Some(End {
                more: false,
                next: at + 2,
            })
        }
        _ => None,
    }
}

// What stands behind a content: in a field with quotes the one that closes it comes first.
#[inline(always)]
pub fn content_end(text: &[u8], at: usize, quotes: bool) -> Option<End>
    requires { at ≤ length text.now }
    ensures { EndRead text.now at quotes result }
{
    if !quotes {
        return read_end(text, at);
    }
    let [QUOTE, ..] = &text[at..] else {
        return None;
    };
    read_end(text, at + 1)
}

// A field: its bytes, inside its quotes if it has them, are those from one place to the other.
#[derive(Clone, Copy)]
pub struct Span {
    pub from: usize,
    pub to: usize,
    pub more: bool,
    pub next: usize,
}

// A quoted field whose content begins at `from`, behind the opening quote.
fn read_quoted(text: &[u8], from: usize) -> Option<Span>
    requires { from ≤ length text.now }
    ensures { SpanRead text.now (quoted (drop from text.now))
        from (from + closing (drop from text.now)) result }
{
    let to = quote_end(text, from);
    let End { more, next } = content_end(text, to, true)?;
    Some(Span {
        from,
        to,
        more,
        next,
    })
}

// The field that begins at `at`.
pub fn read_field(text: &[u8], at: usize) -> Option<Span>
    requires { at ≤ length text.now }
    ensures { SpanRead text.now (field_of (drop at text.now))
        (at + opening (drop at text.now))
        (at + opening (drop at text.now) + content_length (drop at text.now)) result }
{
    if let [QUOTE, ..] = &text[at..] {
        return read_quoted(text, at + 1);
    }
    let to = plain_end(text, at);
    let End { more, next } = read_end(text, to)?;
    Some(Span {
        from: at,
        to,
        more,
        next,
    })
}
