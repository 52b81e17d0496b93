// The walk: monomials without squares in increasing order, those that are multiples of leads passed over, and the squares of the variables between them. A
// column that is a combination of those of the standard monomials found is that of a lead; x_k^2 is one exactly where x_k is standard.
ghost use Rattle.std.specs.Prelude.{◌≡◌, length, replicate};
ghost use Rattle.residue.specs.Sizes.{standard_size, leads_size, coefficients_size};
ghost use Rattle.monomial.specs.Order.{weighted};
ghost use Rattle.specification.specs.Settings.{Accepted};
ghost use Rattle.specification.specs.Tables.{order_under, points_in};
ghost use Rattle.construction.specs.Drawing.{PointsGiven, Tabled};
ghost use Rattle.words.specs.Sequences.{Sequence, Squares};

use crate::sequences::{SQUARES, grevlex, grlex, lex};
use orders::weighing::put_tables;
use residue::{bytes, sizes};
use specification::settings::Settings;
use words::columns::{ones, own_column, put_variables};
use words::keeping::{keep_lead, keep_square, keep_standard};
use words::open::{first_open, pass_above};
use words::pivots::examine;
use words::squares::square_comes;

// Fills the tables of the basis of n points modulo 2. The monomials without squares come in the order of the bytes that are lent, with the places of the
// variables' multiples, and the squares from the last one that is lent to the first.
fn walk(
    settings: Settings,
    n: usize,
    points: &[u8],
    bytes: &[u8],
    multiples: &[u64],
    squares: &[u8],
    before: &[u16],
    standard: &mut [u8],
    leads: &mut [u8],
    coefficients: &mut [u8],
) -> usize
    requires points_given { PointsGiven settings n points.now × (settings.modulus ≡ 2) }
    requires sequence { Sequence (order_under settings) bytes.now multiples.now }
    requires squares { Squares (order_under settings) settings.variables bytes.now squares.now before.now }
    requires standard_value { (standard.old ≡ replicate standard_size 0) × ((leads.old ≡ replicate leads_size 0) × (coefficients.old ≡ replicate coefficients_size 0)) }
    ensures { Tabled settings (points_in settings n points.now) result standard.new leads.new coefficients.new }
{
    let whole = ones(n);
    let mut variables = [0u64; 8];
    put_variables(n, points, &mut variables);
    let mut left = settings.variables as usize;
    let mut known = [0u64; 4];
    pass_above(left, multiples, &mut known);
    let mut values = [0u64; 256];
    let mut places = [0u8; 8];
    let mut rows = [0u8; sizes::POINTS];
    let mut columns = [0u64; sizes::POINTS];
    let mut polynomials = [0u64; sizes::POINTS];
    let mut pivots = 0u64;
    let mut found = 0;
    let mut r = 0;
    let mut at = 0;
    loop {
        at = first_open(at, &known);
        if square_comes(left, at, before) {
            left -= 1;
            let k = squares[left] as usize;
            let place = places[k];
            if place != 0 {
                keep_square(k, place, r, leads, coefficients);
                r += 1;
            }
        } else {
            if at == 256 {
                return r;
            }
            let byte = bytes[at];
            let own = own_column(byte, whole, &variables, &values);
            let e = examine(
                own,
                found,
                pivots,
                &mut rows,
                &mut columns,
                &mut polynomials,
            );
            pivots = e.pivots;
            match e.row {
                Some(row) => {
                    keep_lead(r, byte, row, multiples, &mut known, leads, coefficients);
                    r += 1;
                }
                None => {
                    keep_standard(
                        found,
                        at,
                        byte,
                        own,
                        &mut values,
                        &mut places,
                        &mut known,
                        standard,
                    );
                    found += 1;
                }
            }
        }
    }
}

// The walk in lex. Each order has a function of its own, since a function lays all its constant tables on the stack before anything else.
fn draw_lex(
    settings: Settings,
    n: usize,
    points: &[u8],
    standard: &mut [u8],
    leads: &mut [u8],
    coefficients: &mut [u8],
) -> usize
    requires points_given { PointsGiven settings n points.now × ((settings.modulus ≡ 2) × (settings.order ≡ 0)) }
    requires standard_value { (standard.old ≡ replicate standard_size 0) × ((leads.old ≡ replicate leads_size 0) × (coefficients.old ≡ replicate coefficients_size 0)) }
    ensures { Tabled settings (points_in settings n points.now) result standard.new leads.new coefficients.new }
{
    walk(
        settings,
        n,
        points,
        &lex::BYTES,
        &lex::MULTIPLES,
        &SQUARES,
        &lex::BEFORE,
        standard,
        leads,
        coefficients,
    )
}

// The walk in grlex.
fn draw_grlex(
    settings: Settings,
    n: usize,
    points: &[u8],
    standard: &mut [u8],
    leads: &mut [u8],
    coefficients: &mut [u8],
) -> usize
    requires points_given { PointsGiven settings n points.now × ((settings.modulus ≡ 2) × (settings.order ≡ 1)) }
    requires standard_value { (standard.old ≡ replicate standard_size 0) × ((leads.old ≡ replicate leads_size 0) × (coefficients.old ≡ replicate coefficients_size 0)) }
    ensures { Tabled settings (points_in settings n points.now) result standard.new leads.new coefficients.new }
{
    walk(
        settings,
        n,
        points,
        &grlex::BYTES,
        &grlex::MULTIPLES,
        &SQUARES,
        &grlex::BEFORE,
        standard,
        leads,
        coefficients,
    )
}

// The walk in grevlex.
fn draw_grevlex(
    settings: Settings,
    n: usize,
    points: &[u8],
    standard: &mut [u8],
    leads: &mut [u8],
    coefficients: &mut [u8],
) -> usize
    requires points_given { PointsGiven settings n points.now × ((settings.modulus ≡ 2) × (settings.order ≡ 2)) }
    requires standard_value { (standard.old ≡ replicate standard_size 0) × ((leads.old ≡ replicate leads_size 0) × (coefficients.old ≡ replicate coefficients_size 0)) }
    ensures { Tabled settings (points_in settings n points.now) result standard.new leads.new coefficients.new }
{
    walk(
        settings,
        n,
        points,
        &grevlex::BYTES,
        &grevlex::MULTIPLES,
        &SQUARES,
        &grevlex::BEFORE,
        standard,
        leads,
        coefficients,
    )
}

// The tables of the order by weights, under the settings.
fn put_tables_under(
    settings: Settings,
    bytes: &mut [u8],
    multiples: &mut [u64],
    squares: &mut [u8],
    before: &mut [u16],
)
    requires accepted { Accepted settings × (settings.order ≡ 3) }
    requires bytes_len { (length bytes.old ≡ 256) × (length multiples.old ≡ 32) }
    requires squares_len { (length squares.old ≡ 8) × (length before.old ≡ 8) }
    ensures sequence { Sequence (weighted settings.weights) bytes.new multiples.new }
    ensures squares { Squares (weighted settings.weights) settings.variables bytes.new squares.new before.new }
{
    put_tables(
        settings.variables as usize,
        &settings.weights,
        bytes,
        multiples,
        squares,
        before,
    );
}

// The walk under weights, whose tables are computed.
fn draw_weighted(
    settings: Settings,
    n: usize,
    points: &[u8],
    standard: &mut [u8],
    leads: &mut [u8],
    coefficients: &mut [u8],
) -> usize
    requires points_given { PointsGiven settings n points.now × ((settings.modulus ≡ 2) × (settings.order ≡ 3)) }
    requires standard_value { (standard.old ≡ replicate standard_size 0) × ((leads.old ≡ replicate leads_size 0) × (coefficients.old ≡ replicate coefficients_size 0)) }
    ensures { Tabled settings (points_in settings n points.now) result standard.new leads.new coefficients.new }
{
    let mut bytes = [0u8; 256];
    let mut multiples = [0u64; 32];
    let mut squares = [0u8; 8];
    let mut before = [0u16; 8];
    put_tables_under(
        settings,
        &mut bytes,
        &mut multiples,
        &mut squares,
        &mut before,
    );
    walk(
        settings,
        n,
        points,
        &bytes,
        &multiples,
        &squares,
        &before,
        standard,
        leads,
        coefficients,
    )
}

// The tables of the basis of n points modulo 2, over three lent tables of their sizes.
pub fn draw_anew(
    settings: Settings,
    n: usize,
    points: &[u8],
    standard: &mut [u8],
    leads: &mut [u8],
    coefficients: &mut [u8],
) -> usize
    requires points_given { PointsGiven settings n points.now × (settings.modulus ≡ 2) }
    requires standard_len { (length standard.old ≡ standard_size) × ((length leads.old ≡ leads_size) × (length coefficients.old ≡ coefficients_size)) }
    ensures { Tabled settings (points_in settings n points.now) result standard.new leads.new coefficients.new }
{
    bytes::clear(standard);
    bytes::clear(leads);
    bytes::clear(coefficients);
    match settings.order {
        0 => draw_lex(settings, n, points, standard, leads, coefficients),
        1 => draw_grlex(settings, n, points, standard, leads, coefficients),
        2 => draw_grevlex(settings, n, points, standard, leads, coefficients),
        _ => draw_weighted(settings, n, points, standard, leads, coefficients),
    }
}
