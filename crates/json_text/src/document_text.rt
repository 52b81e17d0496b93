// The text of a whole document.
ghost use Rattle.writing.specs.Appending.{Room, Put};
ghost use Rattle.json_text.specs.Documents.{written};
ghost use Rattle.json_text.specs.Tables.{lent_document, HoldsLent};

use crate::documents::{Lists, Shape, weights_in};
use crate::members::{put_list_member, put_number_member, put_rows_member};
use writing::appending::put_byte;
use writing::tables::rows;

// The document that the tables hold, from the front of the buffer on; the answer is its length.
pub fn put_document(out: &mut [u8], shape: Shape, lists: Lists<'_>) -> usize
    requires holds { HoldsLent shape lists }
    requires room { Room 0 (written (lent_document shape lists)) out.old }
    ensures { Put 0 (written (lent_document shape lists.entry)) out.old out.new result }
{
    let n = shape.n;
    let r = shape.r;
    let m = shape.variables as usize;
    let w = weights_in(shape.order, m);
    let next = put_rows_member(
        out,
        0,
        b"{\"coefficients\":",
        rows::<64>(r, lists.coefficients),
        n,
    );
    let next = put_list_member(out, next, b",\"counts\":", &lists.counts[..n]);
    let next = put_rows_member(out, next, b",\"leads\":", rows::<8>(r, lists.leads), m);
    let next = put_number_member(out, next, b",\"modulus\":", shape.modulus);
    let next = put_number_member(out, next, b",\"order\":", shape.order);
    let next = put_rows_member(out, next, b",\"points\":", rows::<8>(n, lists.points), m);
    let next = put_rows_member(
        out,
        next,
        b",\"standard\":",
        rows::<8>(n, lists.standard),
        m,
    );
    let next = put_number_member(out, next, b",\"variables\":", shape.variables);
    let next = put_list_member(out, next, b",\"weights\":", &lists.weights[..w]);
    put_byte(out, next, b'}')
}
