// The rules on the arguments of a fix.
ghost use Rattle.std.specs.Prelude.{◌≡◌, ◌≤◌};
ghost use Rattle.lists.specs.Walk.{every};
ghost use Rattle.records.specs.Record.{sound_observation, counted_observations};
ghost use Rattle.numeric.specs.Rules.{ruled};
ghost use Rattle.wls.specs.Valid as spec;

use crate::fix::Settings;
use numeric::real::in_range;
use numeric::refusal::Refusal;
use numeric::vec3::Vec3;
use records::record::{Observations, is_sound_observation};

// Checks rule 4 for each counted observation. docs/DECISIONS.md has why no `all` does.
pub(crate) fn all_sound_observations(o: Observations) -> bool
    requires { o.count ≤ 64 }
    ensures { result ≡ every sound_observation (counted_observations o) }
{
    for i in 0..o.count {
        if !is_sound_observation(o.observation[i]) {
            return false;
        }
    }
    true
}

// Checks rule 3 of a fix.
pub(crate) fn fix_settings_pass(s: Settings) -> bool
    ensures { result ≡ spec.fix_settings_pass s }
{
    in_range(s.sigma_a)
        & in_range(s.sigma_b)
        & in_range(s.huber)
        & in_range(s.mask)
        & !(50 < s.rounds)
        & !(s.rounds == 0)
}

// Checks rules 2 to 4 of a fix.
pub(crate) fn check_fix(
    observations: Observations,
    guess: Vec3,
    settings: Settings,
) -> Result<(), Refusal>
    ensures { result ≡ ruled Err (spec.fix_input_rules observations guess settings) (Ok tt) }
{
    if 64 < observations.count {
        return Err(Refusal::TooMany);
    }
    if !fix_settings_pass(settings) {
        return Err(Refusal::SettingOutOfRange);
    }
    if !(all_sound_observations(observations) & guess.is_in_range()) {
        return Err(Refusal::RecordOutOfRange);
    }
    Ok(())
}
