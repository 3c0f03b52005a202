// What every operation over codes checks first.
ghost use Rattle.std.specs.Prelude.{◌≡◌, [], ◌∷◌};
ghost use Rattle.refusals.specs.Settings.{check_settings};
ghost use Rattle.refusals.specs.Steps.{check_steps};
ghost use Rattle.refusals.specs.Verdicts.{first_refusal};

use refusals::settings::Settings;
use refusals::{Refusal, settings, steps};

// Refusal 1 for the settings, 2 for the one step list.
pub fn check_coder(s: Settings, listed: &[i32]) -> Result<(), Refusal>
    ensures { result ≡ first_refusal (check_settings s ∷ check_steps 0 listed.now ∷ []) }
{
    settings::check_settings(s)?;
    steps::check_steps(0, listed)
}
