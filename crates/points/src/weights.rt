// The weights of the settings.
ghost use Rattle.std.specs.Prelude.{◌≡◌, ◌≤◌};
ghost use Rattle.specification.specs.Settings.{weighs_first, right_weights};

use residue::bytes;
use specification::settings::Settings;

// Whether the first m of the eight weights are from 1 to 99, and those behind them 0.
fn weighs_first(m: usize, weights: &[u8; 8]) -> bool
    requires { m ≤ 8 }
    ensures { result ≡ weighs_first m weights.now }
{
    weights[..m].iter().all(|w| (1..=99).contains(w)) && bytes::all_zero(&weights[m..])
}

// Whether the weights are right, for settings with at most 8 variables: only order 3 weighs them.
#[tactic(auto, unfolding(specification::specs::Settings::right_weights))]
pub fn right_weights(settings: Settings) -> bool
    requires { settings.variables ≤ 8 }
    ensures { result ≡ right_weights settings }
{
    let weighed = if settings.order == 3 {
        settings.variables as usize
    } else {
        0
    };
    weighs_first(weighed, &settings.weights)
}
