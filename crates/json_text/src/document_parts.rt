// A document in three parts: each reads a few members, and answers the lengths of their lists.
ghost use Rattle.std.specs.Prelude.{◌≡◌, ◌&&◌, suc, ◌≤◌, length, replicate, eqb};
ghost use Rattle.residue.specs.Sizes.{states_size, standard_size, leads_size, coefficients_size, counts_size};
ghost use Rattle.json_text.specs.Places.{here};
ghost use Rattle.json_text.specs.Parts.{FrontRead, MiddleRead, EndRead};

use crate::reading::{Lengths, is_here, read_list, read_number, read_rows, read_word};
use residue::sizes;

// The first three members, and the place behind them.
#[derive(Drop)]
pub struct Front {
    pub coefficients: Lengths,
    pub n: usize,
    pub leads: Lengths,
    pub next: usize,
}

pub fn read_front(
    text: &[u8],
    coefficients: &mut [u8],
    counts: &mut [u8],
    leads: &mut [u8],
) -> Option<Front>
    requires { (coefficients.old ≡ replicate coefficients_size 0) × (counts.old ≡ replicate counts_size 0) × (leads.old ≡ replicate leads_size 0) }
    ensures { FrontRead text.now result coefficients.new counts.new leads.new }
{
    let next = read_word(text, 0, b"{\"coefficients\":")?;
    let rows = read_rows(text, next, 64, sizes::ROWS, coefficients)?;
    let next = read_word(text, rows.next, b",\"counts\":")?;
    let counted = read_list(text, next, counts)?;
    let next = read_word(text, counted.next, b",\"leads\":")?;
    let leading = read_rows(text, next, 8, sizes::ROWS, leads)?;
    Some(Front {
        coefficients: rows.lengths,
        n: counted.count,
        leads: leading.lengths,
        next: leading.next,
    })
}

// The four members behind them.
#[derive(Drop)]
pub struct Middle {
    pub modulus: u8,
    pub order: u8,
    pub points: Lengths,
    pub standard: Lengths,
    pub next: usize,
}

pub fn read_middle(text: &[u8], at: usize, points: &mut [u8], standard: &mut [u8]) -> Option<Middle>
    requires at_in_bounds { at ≤ length text.now }
    requires points_value { (points.old ≡ replicate states_size 0) × (standard.old ≡ replicate standard_size 0) }
    ensures { MiddleRead text.now at result points.new standard.new }
{
    let next = read_word(text, at, b",\"modulus\":")?;
    let modulus = read_number(text, next)?;
    let next = read_word(text, modulus.next, b",\"order\":")?;
    let order = read_number(text, next)?;
    let next = read_word(text, order.next, b",\"points\":")?;
    let pointed = read_rows(text, next, 8, sizes::POINTS, points)?;
    let next = read_word(text, pointed.next, b",\"standard\":")?;
    let standing = read_rows(text, next, 8, sizes::POINTS, standard)?;
    Some(Middle {
        modulus: modulus.value,
        order: order.value,
        points: pointed.lengths,
        standard: standing.lengths,
        next: standing.next,
    })
}

// Whether the text ends here, with a brace.
fn is_end(text: &[u8], at: usize) -> bool
    ensures { result ≡ (here 125 text.now at && eqb (suc at) (length text.now)) }
{
    is_here(text, at, b'}') && at + 1 == text.len()
}

// The last two members, and the end of the text behind them.
#[derive(Drop)]
pub struct End {
    pub variables: u8,
    pub count: usize,
}

pub fn read_end(text: &[u8], at: usize, weights: &mut [u8]) -> Option<End>
    requires at_in_bounds { at ≤ length text.now }
    requires weights_value { weights.old ≡ replicate 8 0 }
    ensures { EndRead text.now at result weights.new }
{
    let next = read_word(text, at, b",\"variables\":")?;
    let variables = read_number(text, next)?;
    let next = read_word(text, variables.next, b",\"weights\":")?;
    let weighed = read_list(text, next, weights)?;
    if !is_end(text, weighed.next) {
        return None;
    }
    Some(End {
        variables: variables.value,
        count: weighed.count,
    })
}
