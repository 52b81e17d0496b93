// Reading a text, and running the time course of one forward.
ghost use Rattle.std.specs.Prelude.{◌≡◌};
ghost use Rattle.comma_text.specs.reading.Text.{read_outcome};
ghost use Rattle.specification.specs.Tables.{five_tables};
ghost use Rattle.forward.specs.Outcome.{course_outcome};
ghost use Rattle.misqafur.specs.Packing.{left_reading, packed_reading, left_course, packed_run};

use crate::packing::{pack_course, pack_read};
use comma_text::reading::read_text;
use forward::running::time_course;
use specification::tables::TablesMut;

// The settings of a text and the number of its distinct points; the points, their values, their counts and the weights of the settings into the lent buffers.
#[unsafe(no_mangle)]
pub extern "C" fn misqafur_read_text(
    text: &[u8],
    states: &mut [u8],
    values: &mut [u8],
    counts: &mut [u8],
    weights: &mut [u8],
) -> u64
    ensures { left_reading result states.new values.new counts.new weights.new
        ≡ packed_reading (read_outcome text.now states.old values.old counts.old weights.old) }
{
    pack_read(read_text(text, states, values, counts, weights))
}

// The time course of a text run forward, from the first state of the course of this number: the points' basis, the interpolants and the weights of the settings
// into the lent buffers.
#[unsafe(no_mangle)]
pub extern "C" fn misqafur_time_course(
    text: &[u8],
    course: u64,
    states: &mut [u8],
    standard: &mut [u8],
    leads: &mut [u8],
    coefficients: &mut [u8],
    counts: &mut [u8],
    interpolants: &mut [u8],
    weights: &mut [u8],
) -> u64
    ensures { left_course result
        (five_tables states.new standard.new leads.new coefficients.new counts.new)
        interpolants.new weights.new
        ≡ packed_run (course_outcome text.now course
        (five_tables states.old standard.old leads.old coefficients.old counts.old)
        interpolants.old weights.old) }
{
    let tables = TablesMut {
        states,
        standard,
        leads,
        coefficients,
        counts,
    };
    pack_course(time_course(text, course, tables, interpolants, weights))
}
