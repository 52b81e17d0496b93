// The refusals that look at the settings and at lengths and counts alone, 3 to 8 and 15.
ghost use Rattle.std.specs.Prelude.{◌≡◌, not, false, [], ◌∷◌, ◌++◌, ◌%◌, eqb};
ghost use Rattle.specification.specs.Answers.{refusal_of};
ghost use Rattle.specification.specs.Refusal.{first_of};
ghost use Rattle.specification.specs.Settings.{settings_cases};

use points::weights::right_weights;
use residue::level;
use specification::refusals::Refusal;
use specification::settings::Settings;

// The refusals that look at the settings alone.
#[tactic(auto, unfolding(specification::specs::Answers::refusal_of, specification::specs::Answers::number_of, specification::specs::Refusal::first_of, specification::specs::Settings::settings_cases))]
pub fn check_settings(settings: Settings) -> Result<(), Refusal>
    ensures { refusal_of result ≡ first_of 0 (settings_cases settings) }
{
    if !level::is_modulus(settings.modulus) {
        return Err(Refusal::Modulus);
    }
    if !(1..=8).contains(&settings.variables) {
        return Err(Refusal::Variables);
    }
    if 3 < settings.order {
        return Err(Refusal::Order);
    }
    if !right_weights(settings) {
        return Err(Refusal::Weights);
    }
    Ok(())
}

// A table or buffer is too short, a length is wrong, there are too many points or terms.
#[tactic(auto, using(specification::proofs::agreement::Refusals::settings_pass, crate::proofs::settings::ByNumber::settings_stop), unfolding(specification::specs::Answers::refusal_of, specification::specs::Answers::number_of, specification::specs::Refusal::first_of))]
pub(crate) fn by_sizes(
    settings: Settings,
    short: bool,
    wrong: bool,
    many: bool,
) -> Result<(), Refusal>
    ensures { refusal_of result ≡ first_of 0 (settings_cases settings ++ ((short, 6) ∷ (wrong, 7) ∷ (many, 8) ∷ [])) }
{
    check_settings(settings)?;
    if short {
        return Err(Refusal::ShortBuffer);
    }
    if wrong {
        return Err(Refusal::Length);
    }
    if many {
        return Err(Refusal::TooMany);
    }
    Ok(())
}

// Drawing up from this many levels, of any number of points; `short` is whether a lent table is too short. 8 counts the distinct ones, and comes later.
pub fn draw_sizes(settings: Settings, short: bool, levels: usize) -> Result<(), Refusal>
    ensures { refusal_of result ≡ first_of 0 (settings_cases settings
        ++ ((short, 6) ∷ (not (eqb (levels % settings.variables) 0), 7) ∷ (false, 8) ∷ [])) }
{
    by_sizes(
        settings,
        short,
        !levels.is_multiple_of(settings.variables as usize),
        false,
    )
}
