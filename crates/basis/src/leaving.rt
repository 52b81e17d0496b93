// Leaving a variable out of tables that are only read. Every refusal is decided before a byte of the tables for the result is written; then the points without
// the variable are drawn up, over the pivot rows with which the tables were recognised: two sets of them would take more stack than the header promises.
ghost use Rattle.std.specs.Prelude.{◌≡◌, Ok, not, [], ◌∷◌, ◌++◌, ℕ, ◌-◌, ◌≤◌, replicate};
ghost use Rattle.residue.specs.Sizes.{states_size, counts_size};
ghost use Rattle.specification.specs.Answers.{refusal_of, answer_of};
ghost use Rattle.specification.specs.Lent.{lent, lent_mut, left_in};
ghost use Rattle.specification.specs.Refusal.{first_of};
ghost use Rattle.specification.specs.Settings.{settings_cases};
ghost use Rattle.specification.specs.Tables.{held_in};
ghost use Rattle.specification.specs.Adding.{ended};
ghost use Rattle.specification.specs.LeaveOut.{without_variable, fewer, can_leave_out, leave_out_cases, leave_out_outcome};
ghost use Rattle.construction.specs.Drawing.{RowsLong};
ghost use Rattle.points.specs.Gathering.{TabledAs};

use crate::drawing::draw_points;
use monomial::insert::take_out;
use points::leaving::gather_without;
use recognition::looking::{Faults, look};
use recognition::settings::check_settings;
use residue::sizes;
use specification::answers::Size;
use specification::refusals::Refusal;
use specification::settings::Settings;
use specification::tables::{TablesMut, TablesRef};

// Whether a variable can be left out: it is one of those of the settings, and not the only one.
#[tactic(auto, unfolding(specification::specs::LeaveOut::can_leave_out))]
fn can_leave_out(settings: Settings, variable: u64) -> bool
    ensures { result ≡ can_leave_out settings variable }
{
    (1..=settings.variables).contains(&variable) && settings.variables != 1
}

// The refusals that look at the settings and the variable.
#[tactic(auto, using(specification::proofs::agreement::Refusals::settings_pass, recognition::proofs::settings::ByNumber::settings_stop), unfolding(specification::specs::Answers::refusal_of, specification::specs::Answers::number_of, specification::specs::Refusal::first_of))]
fn check_variable(settings: Settings, variable: u64) -> Result<(), Refusal>
    ensures { refusal_of result ≡ first_of 0 (settings_cases settings ++ ((not (can_leave_out settings variable), 16) ∷ [])) }
{
    check_settings(settings)?;
    if !can_leave_out(settings, variable) {
        return Err(Refusal::Variable);
    }
    Ok(())
}

// The points without the variable, left in tables of zeros with their counts, and how many they are; or what refuses it. `short` is whether a table for the
// result is too short. What is left of the pivot rows does not matter.
fn gather_left(
    settings: Settings,
    n: u64,
    r: u64,
    tables: TablesRef<'_>,
    variable: u64,
    short: bool,
    points: &mut [u8],
    times: &mut [u8],
    rows: &mut [u8],
    pivots: &mut [u8],
) -> Result<usize, Refusal>
    requires { (points.old ≡ replicate states_size 0) × (times.old ≡ replicate counts_size 0) × RowsLong rows.old pivots.old }
    ensures refusal_value { refusal_of result ≡ first_of 0 (leave_out_cases settings n r (lent tables.entry) variable short) }
    ensures tabled_as { (left : ℕ) → result ≡ Ok left
        → TabledAs (without_variable (variable - 1) (held_in settings n (lent tables.entry))) left points.new times.new }
{
    check_variable(settings, variable)?;
    let mut old = [0u8; sizes::STATES];
    let faults = Faults {
        short,
        wrong: false,
        many: false,
    };
    look(
        settings,
        n,
        r,
        tables,
        faults,
        &[],
        &[],
        &mut old,
        rows,
        pivots,
    )?;
    gather_without(
        settings.variables as usize,
        (variable - 1) as usize,
        n as usize,
        &old,
        tables.counts,
        points,
        times,
    )
}

// The settings with one variable and its weight fewer.
#[tactic(auto, using(crate::proofs::leaving::Outcome::weights_out))]
fn one_fewer(settings: Settings, variable: u64) -> Settings
    requires { (1 ≤ variable) × (variable ≤ 8) × (1 ≤ settings.variables) }
    ensures { result ≡ fewer variable settings }
{
    let place = (variable - 1) as usize;
    let mut weights = [0u8; 8];
    take_out(1, 8, place, &settings.weights, &mut weights);
    Settings {
        variables: settings.variables - 1,
        weights,
        ..settings
    }
}

// Leaving one of the variables, by its number from 1, out of the basis of n points, with r rows: the basis of the points without it, in tables of its own.
pub fn leave_out(
    settings: Settings,
    n: u64,
    r: u64,
    tables: TablesRef<'_>,
    variable: u64,
    left: TablesMut<'_>,
) -> Result<Size, Refusal>
    ensures { ended (answer_of result) (left_in left.exit) ≡ leave_out_outcome settings n r (lent tables.entry) variable (lent_mut left.entry) }
{
    let TablesMut {
        states,
        standard,
        leads,
        coefficients,
        counts,
    } = left;
    let lent = TablesRef {
        states,
        standard,
        leads,
        coefficients,
        counts,
    };
    let mut points = [0u8; sizes::STATES];
    let mut times = [0u8; sizes::COUNTS];
    let mut rows = [0u8; sizes::PIVOT_ROWS];
    let mut pivots = [0u8; sizes::POINTS];
    let k = gather_left(
        settings,
        n,
        r,
        tables,
        variable,
        lent.too_short(),
        &mut points,
        &mut times,
        &mut rows,
        &mut pivots,
    )?;
    let left = TablesMut {
        states,
        standard,
        leads,
        coefficients,
        counts,
    };
    let fewer = one_fewer(settings, variable);
    let drawn = draw_points(fewer, k, &points, &times, left, &mut rows, &mut pivots);
    Ok(Size {
        n: drawn.n,
        r: drawn.r,
    })
}
