// Adding to, withdrawing from, drawing up, leaving a variable out of and checking the five lent tables. Levels are bytes that are read as signed ones, 255 as
// -1 (specs/Bytes).
ghost use Rattle.std.specs.Prelude.{◌≡◌};
ghost use Rattle.specification.specs.Tables.{five_tables};
ghost use Rattle.specification.specs.Adding.{add_outcome, draw_outcome, draw_packed_outcome};
ghost use Rattle.specification.specs.Withdrawing.{withdraw_outcome};
ghost use Rattle.specification.specs.LeaveOut.{leave_out_outcome};
ghost use Rattle.specification.specs.Solving.{check_refusal};
ghost use Rattle.misqafur.specs.Packing.{settings_given, left, packed_outcome, packed_drawing};

use crate::packing::{pack_answer, pack_drawn, pack_refusal, settings_given};
use addition::adding;
use basis::{drawing, leaving, withdrawing};
use queries::checking;
use specification::tables::{TablesMut, TablesRef};

// Adding one point to the n points of the tables.
#[unsafe(no_mangle)]
pub extern "C" fn misqafur_add_point(
    modulus: u64,
    variables: u64,
    order: u64,
    weights: u64,
    n: u64,
    r: u64,
    states: &mut [u8],
    standard: &mut [u8],
    leads: &mut [u8],
    coefficients: &mut [u8],
    counts: &mut [u8],
    levels: &[i8],
) -> u32
    ensures { left result (five_tables states.new standard.new leads.new coefficients.new counts.new)
        ≡ packed_outcome (add_outcome (settings_given modulus variables order weights) n r
        (five_tables states.old standard.old leads.old coefficients.old counts.old)
        levels.now) }
{
    let tables = TablesMut {
        states,
        standard,
        leads,
        coefficients,
        counts,
    };
    let settings = settings_given(modulus, variables, order, weights);
    pack_answer(adding::add_point(settings, n, r, tables, levels))
}

// Withdrawing one of the n points of the tables.
#[unsafe(no_mangle)]
pub extern "C" fn misqafur_withdraw_point(
    modulus: u64,
    variables: u64,
    order: u64,
    weights: u64,
    n: u64,
    r: u64,
    states: &mut [u8],
    standard: &mut [u8],
    leads: &mut [u8],
    coefficients: &mut [u8],
    counts: &mut [u8],
    levels: &[i8],
) -> u32
    ensures { left result (five_tables states.new standard.new leads.new coefficients.new counts.new)
        ≡ packed_outcome (withdraw_outcome (settings_given modulus variables order weights) n r
        (five_tables states.old standard.old leads.old coefficients.old counts.old)
        levels.now) }
{
    let tables = TablesMut {
        states,
        standard,
        leads,
        coefficients,
        counts,
    };
    let settings = settings_given(modulus, variables, order, weights);
    pack_answer(withdrawing::withdraw_point(settings, n, r, tables, levels))
}

// Drawing up from all points at once.
#[unsafe(no_mangle)]
pub extern "C" fn misqafur_draw_up(
    modulus: u64,
    variables: u64,
    order: u64,
    weights: u64,
    states: &mut [u8],
    standard: &mut [u8],
    leads: &mut [u8],
    coefficients: &mut [u8],
    counts: &mut [u8],
    levels: &[i8],
) -> u64
    ensures { left result (five_tables states.new standard.new leads.new coefficients.new counts.new)
        ≡ packed_drawing (draw_outcome (settings_given modulus variables order weights)
        (five_tables states.old standard.old leads.old coefficients.old counts.old)
        levels.now) }
{
    let tables = TablesMut {
        states,
        standard,
        leads,
        coefficients,
        counts,
    };
    let settings = settings_given(modulus, variables, order, weights);
    pack_drawn(drawing::draw_up(settings, tables, levels))
}

// Drawing up with words where the modulus is 2: the tables of drawing up, and no cancellations.
#[unsafe(no_mangle)]
pub extern "C" fn misqafur_draw_up_packed(
    modulus: u64,
    variables: u64,
    order: u64,
    weights: u64,
    states: &mut [u8],
    standard: &mut [u8],
    leads: &mut [u8],
    coefficients: &mut [u8],
    counts: &mut [u8],
    levels: &[i8],
) -> u32
    ensures { left result (five_tables states.new standard.new leads.new coefficients.new counts.new)
        ≡ packed_outcome (draw_packed_outcome (settings_given modulus variables order weights)
        (five_tables states.old standard.old leads.old coefficients.old counts.old)
        levels.now) }
{
    let tables = TablesMut {
        states,
        standard,
        leads,
        coefficients,
        counts,
    };
    let settings = settings_given(modulus, variables, order, weights);
    pack_answer(packed::call::draw_up_packed(settings, tables, levels))
}

// Leaving one of the variables, by its number from 1, out of the basis in the first five tables, which are only read; the result goes to the other five.
#[unsafe(no_mangle)]
pub extern "C" fn misqafur_leave_out(
    modulus: u64,
    variables: u64,
    order: u64,
    weights: u64,
    n: u64,
    r: u64,
    states: &[u8],
    standard: &[u8],
    leads: &[u8],
    coefficients: &[u8],
    counts: &[u8],
    variable: u64,
    new_states: &mut [u8],
    new_standard: &mut [u8],
    new_leads: &mut [u8],
    new_coefficients: &mut [u8],
    new_counts: &mut [u8],
) -> u32
    ensures { left result (five_tables new_states.new new_standard.new new_leads.new
        new_coefficients.new new_counts.new)
        ≡ packed_outcome (leave_out_outcome (settings_given modulus variables order weights) n r
        (five_tables states.now standard.now leads.now coefficients.now counts.now)
        variable
        (five_tables new_states.old new_standard.old new_leads.old
        new_coefficients.old new_counts.old)) }
{
    let tables = TablesRef {
        states,
        standard,
        leads,
        coefficients,
        counts,
    };
    let left = TablesMut {
        states: new_states,
        standard: new_standard,
        leads: new_leads,
        coefficients: new_coefficients,
        counts: new_counts,
    };
    let settings = settings_given(modulus, variables, order, weights);
    pack_answer(leaving::leave_out(settings, n, r, tables, variable, left))
}

// Checking lent tables.
#[unsafe(no_mangle)]
pub extern "C" fn misqafur_check(
    modulus: u64,
    variables: u64,
    order: u64,
    weights: u64,
    n: u64,
    r: u64,
    states: &[u8],
    standard: &[u8],
    leads: &[u8],
    coefficients: &[u8],
    counts: &[u8],
) -> u32
    ensures { result
        ≡ check_refusal (settings_given modulus variables order weights) n r
        (five_tables states.now standard.now leads.now coefficients.now counts.now) }
{
    let tables = TablesRef {
        states,
        standard,
        leads,
        coefficients,
        counts,
    };
    let settings = settings_given(modulus, variables, order, weights);
    pack_refusal(checking::check(settings, n, r, tables))
}
