// Which of the 256 monomials without squares are left to be examined: known are those that have been, and the multiples of leads. A set is four words, a bit
// for each place in the order.
ghost use Rattle.std.specs.Prelude.{◌≡◌, ◌<◌, ◌≤◌, length};
ghost use Rattle.std.specs.Int.Bits.{bit_and, bit_or};
ghost use Rattle.words.specs.PlaceSets.{others, Wordwise, KnownBelow, FirstOpen, Passed, OfMultiple, OfAbove};

const ALL: u64 = u64::MAX;

// The bits that a word has not.
fn others(word: u64) -> u64
    ensures { result ≡ others word }
{
    ALL ^ word
}

// The first place that is not known, or 256, where those below `from` are: the words in front of its own are not looked at again.
pub fn first_open(from: usize, known: &[u64]) -> usize
    requires { (length known.now ≡ 4) × KnownBelow from known.now }
    ensures { FirstOpen known.now result }
{
    for w in from / 64..4 {
        let open = others(known[w]);
        if open != 0 {
            return 64 * w + u64::trailing_zeros(open) as usize;
        }
    }
    256
}

// A place that is known now.
pub fn pass(at: usize, known: &mut [u64])
    requires { (at < 256) × (length known.old ≡ 4) }
    ensures { Passed (λ i. i ≡ at) known.old known.new }
{
    let w = at / 64;
    known[w] |= 1u64 << at % 64;
}

fn meet(a: &mut [u64], b: &[u64])
    requires { (length a.old ≡ 4) × (length b.now ≡ 4) }
    ensures { Wordwise (λ x y. bit_and x y) a.old b.now a.new }
{
    for (w, word) in b.iter().enumerate() {
        a[w] &= *word;
    }
}

fn join(a: &mut [u64], b: &[u64])
    requires { (length a.old ≡ 4) × (length b.now ≡ 4) }
    ensures { Wordwise (λ x y. bit_or x y) a.old b.now a.new }
{
    for (w, word) in b.iter().enumerate() {
        a[w] |= *word;
    }
}

// The multiples of a lead are known: those of all its variables.
pub fn pass_multiples(byte: u8, multiples: &[u64], known: &mut [u64])
    requires { (length multiples.now ≡ 32) × (length known.old ≡ 4) }
    ensures { Passed (OfMultiple byte multiples.now) known.old known.new }
{
    let mut common = [ALL; 4];
    let mut left = byte;
    while left != 0 {
        let from = 4 * u8::trailing_zeros(left) as usize;
        meet(&mut common, &multiples[from..from + 4]);
        left &= left - 1;
    }
    join(known, &common);
}

// Of m variables, the monomials with one above them are known from the start.
pub fn pass_above(m: usize, multiples: &[u64], known: &mut [u64])
    requires { (m ≤ 8) × ((length multiples.now ≡ 32) × (length known.old ≡ 4)) }
    ensures { Passed (OfAbove m multiples.now) known.old known.new }
{
    for k in m..8 {
        let from = 4 * k;
        join(known, &multiples[from..from + 4]);
    }
}
