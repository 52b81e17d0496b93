// Whole documents: their members in order.
ghost use Rattle.std.specs.Prelude.{◌≡◌, List, ℕ, replicate};
ghost use Rattle.residue.specs.Sizes.{states_size, standard_size, leads_size, coefficients_size, counts_size};
ghost use Rattle.json_text.specs.Documents.{is_table, weight_count};
ghost use Rattle.json_text.specs.Said.{lengths_of};
ghost use Rattle.json_text.specs.Tables.{DocumentRead};

use crate::document_parts::{read_end, read_front, read_middle};
use crate::reading::Lengths;

// The numbers of a document: those of its settings, how many states it has and how many rows.
#[derive(Drop)]
pub struct Shape {
    pub modulus: u8,
    pub variables: u8,
    pub order: u8,
    pub n: usize,
    pub r: usize,
}

// The lists of a document, in lent tables: rows in places of 8 bytes, those of coefficients in places of 64.
#[derive(Clone, Copy)]
pub struct Lists<'a> {
    pub coefficients: &'a [u8],
    pub counts: &'a [u8],
    pub leads: &'a [u8],
    pub points: &'a [u8],
    pub standard: &'a [u8],
    pub weights: &'a [u8],
}

// Whether rows of these lengths are so many of so many numbers.
fn is_table(lengths: Lengths, rows: usize, columns: usize) -> bool
    ensures { (l : List (List ℕ)) → lengths ≡ lengths_of l → result ≡ is_table rows columns l }
{
    lengths.count == rows && (rows == 0 || lengths.columns == Some(columns))
}

// How many weights there are.
pub(crate) fn weights_in(order: u8, m: usize) -> usize
    ensures { result ≡ weight_count order m }
{
    if order == 3 { m } else { 0 }
}

// A text is read into tables of zeros: as much as there is room for is stored.
pub fn read_document(
    text: &[u8],
    coefficients: &mut [u8],
    counts: &mut [u8],
    leads: &mut [u8],
    points: &mut [u8],
    standard: &mut [u8],
    weights: &mut [u8],
) -> Option<Shape>
    requires coefficients_value { (coefficients.old ≡ replicate coefficients_size 0) × (counts.old ≡ replicate counts_size 0) × (leads.old ≡ replicate leads_size 0) }
    requires points_value { (points.old ≡ replicate states_size 0) × (standard.old ≡ replicate standard_size 0) × (weights.old ≡ replicate 8 0) }
    ensures { DocumentRead text.now result coefficients.new counts.new leads.new
        points.new standard.new weights.new }
{
    let front = read_front(text, coefficients, counts, leads)?;
    let middle = read_middle(text, front.next, points, standard)?;
    let end = read_end(text, middle.next, weights)?;
    let n = front.n;
    let r = front.leads.count;
    let m = end.variables as usize;
    let fits = is_table(middle.points, n, m)
        & is_table(middle.standard, n, m)
        & is_table(front.leads, r, m)
        & is_table(front.coefficients, r, n)
        & (end.count == weights_in(middle.order, m));
    if !fits {
        return None;
    }
    Some(Shape {
        modulus: middle.modulus,
        variables: end.variables,
        order: middle.order,
        n,
        r,
    })
}
