// The monomial orders: 0 lex, 1 grlex, 2 grevlex, 3 by weights.
ghost use Rattle.std.specs.Prelude.{◌≡◌};
ghost use Rattle.monomial.specs.Order.{order_of, by_first, by_last, cmp};
ghost use Rattle.monomial.specs.Comparison.{comparison_of, meant};

use crate::exponents::{degree, weigh};
use std::cmp::Ordering;

// A monomial order; order 3 has the weights of the variables, x1's first.
#[derive(Drop)]
pub enum Order {
    Lex,
    Grlex,
    Grevlex,
    Weighted([u8; 8]),
}

impl Order {
    // The order of a number and of the settings' weights. A number above 3 is refused before it is read here.
    pub fn of(number: u64, weights: [u8; 8]) -> Order
        ensures { meant result ≡ order_of number weights }
    {
        match number {
            0 => Order::Lex,
            1 => Order::Grlex,
            2 => Order::Grevlex,
            _ => Order::Weighted(weights),
        }
    }
}

// The first variable that differs decides; the larger exponent is greater.
fn by_first(a: &[u8; 8], b: &[u8; 8]) -> Ordering
    ensures { result ≡ comparison_of (by_first a.now b.now) }
{
    a.cmp(b)
}

// The last variable that differs decides; the smaller exponent there is greater.
fn by_last(a: &[u8; 8], b: &[u8; 8]) -> Ordering
    ensures { result ≡ comparison_of (by_last a.now b.now) }
{
    b.iter().rev().cmp(a.iter().rev())
}

// How a stands to b.
pub fn compare(order: &Order, a: &[u8; 8], b: &[u8; 8]) -> Ordering
    ensures { result ≡ comparison_of (cmp (meant order.now) a.now b.now) }
{
    match order {
        Order::Lex => by_first(a, b),
        Order::Grlex => degree(a).cmp(&degree(b)).then_with(|| by_first(a, b)),
        Order::Grevlex => degree(a).cmp(&degree(b)).then_with(|| by_last(a, b)),
        Order::Weighted(weights) => weigh(weights, a)
            .cmp(&weigh(weights, b))
            .then_with(|| by_first(a, b)),
    }
}
