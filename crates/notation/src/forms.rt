// The forms of a field's content.
ghost use Rattle.std.specs.Prelude.{◌≡◌, ◌≤◌, length, drop, set, replicate};
ghost use Rattle.notation.specs.Forms.{weight_first, weight_order, order_word, modulus_and_order, last_field};
ghost use Rattle.notation.specs.Said.{weight_said, WeightWithin, OrderRead, LastRead};

use crate::digits::read_leading;

// A weight, and where the content goes on behind it.
#[derive(Clone, Copy)]
pub struct Weight {
    pub weight: u8,
    pub next: usize,
}

// The weight at `at`, a space and one or two digits.
fn read_weight(content: &[u8], at: usize) -> Option<Weight>
    requires { at ≤ length content.now }
    ensures fact_1 { weight_said content.now result ≡ weight_first (drop at content.now) }
    ensures fact_2 { WeightWithin (length content.now) result }
{
    let [b' ', digits @ ..] = &content[at..] else {
        return None;
    };
    let number = read_leading(digits)?;
    if 2 < number.count {
        return None;
    }
    Some(Weight {
        weight: number.size as u8,
        next: at + 1 + number.count,
    })
}

// Keeps the weight of a variable; one beyond the last place is not kept, since more variables than places are refused.
fn keep_weight(weights: &mut [u8], i: usize, weight: u8)
    ensures { weights.new ≡ set weights.old i weight }
{
    if i < weights.len() {
        weights[i] = weight;
    }
}

// As many weights as there are names, into eight zeros: the order is then by weights.
fn read_weights(content: &[u8], names: usize, weights: &mut [u8]) -> Option<u8>
    requires { weights.old ≡ replicate 8 0 }
    ensures { OrderRead (weight_order names content.now) weights.new result }
{
    let mut at = 0;
    for i in 0..names {
        let Weight { weight, next } = read_weight(content, at)?;
        keep_weight(weights, i, weight);
        at = next;
    }
    if at < content.len() {
        return None;
    }
    Some(3)
}

// The order of a text without the word: grevlex.
const DEFAULT_ORDER: u8 = 2;

// The order's number, by what stands behind the digits; its weights into eight zeros.
fn read_order(word: &[u8], names: usize, weights: &mut [u8]) -> Option<u8>
    requires { weights.old ≡ replicate 8 0 }
    ensures { OrderRead (order_word names word.now) weights.new result }
{
    match word {
        b"" => Some(DEFAULT_ORDER),
        b" lex" => Some(0),
        b" grlex" => Some(1),
        b" grevlex" => Some(2),
        _ => read_weights(word.strip_prefix(b" weight")?, names, weights),
    }
}

// What the last field of a header says.
#[derive(Clone, Copy)]
pub struct Settings {
    pub modulus: u16,
    pub order: u8,
}

// Digits, and the order if it is said.
fn read_settings(content: &[u8], names: usize, weights: &mut [u8]) -> Option<Settings>
    requires { weights.old ≡ replicate 8 0 }
    ensures { LastRead names (modulus_and_order names content.now) weights.new result }
{
    let number = read_leading(content)?;
    let order = read_order(&content[number.count..], names, weights)?;
    Some(Settings {
        modulus: number.size,
        order,
    })
}

// The last field of a header of so many names; the weights of the settings into eight zeros.
pub fn read_last(content: &[u8], names: usize, weights: &mut [u8]) -> Option<Settings>
    requires { weights.old ≡ replicate 8 0 }
    ensures { LastRead names (last_field names content.now) weights.new result }
{
    read_settings(content.strip_prefix(b"mod ")?, names, weights)
}
