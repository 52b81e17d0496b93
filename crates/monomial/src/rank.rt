// Ranks: one number for a monomial, whose order is the monomial order as long as the total degree is below 65.
ghost use Rattle.std.specs.Prelude.{◌≡◌};
ghost use Rattle.monomial.specs.Comparison.{meant};
ghost use Rattle.monomial.specs.Order.{weighted};
ghost use Rattle.monomial.specs.Rank.{steps_of};

use crate::order::Order;

// The ranks of x1 to x8.
const LEX: [u64; 8] = [
    4902227890625,
    75418890625,
    1160290625,
    17850625,
    274625,
    4225,
    65,
    1,
];

const GRLEX: [u64; 8] = [
    4977646781250,
    4903388181250,
    4902245741250,
    4902228165250,
    4902227894850,
    4902227890690,
    4902227890626,
    4902227890625,
];

const GREVLEX: [u64; 8] = [
    4978825201416,
    4978825201415,
    4978825201350,
    4978825197125,
    4978824922500,
    4978807071875,
    4977646781250,
    4902227890625,
];

// The ranks of the variables. Under weights they are those in lex, and 65 to the power 8 for each unit of weight.
pub fn variable_ranks(order: &Order) -> [u64; 8]
    ensures { result ≡ steps_of (meant order.now) }
{
    match order {
        Order::Lex => LEX,
        Order::Grlex => GRLEX,
        Order::Grevlex => GREVLEX,
        Order::Weighted(weights) => weighted_ranks(weights),
    }
}

fn weighted_ranks(weights: &[u8; 8]) -> [u64; 8]
    ensures { result ≡ steps_of (weighted weights.now) }
{
    let mut ranks = LEX;
    for (k, weight) in weights.iter().enumerate() {
        ranks[k] += *weight as u64 * 318644812890625;
    }
    ranks
}
