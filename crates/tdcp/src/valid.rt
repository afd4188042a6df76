// The rules of a displacement: on its settings, records and interval, and on its pairs.
ghost use Rattle.std.specs.Prelude.{◌≡◌, true, not, ◌&&◌, [], ◌∷◌, ◌++◌};
ghost use Rattle.numeric.specs.declared.refusal.Refusal.TheVariants.{BadTime, NotCertified};
ghost use Rattle.clocks.specs.Clocks.{has};
ghost use Rattle.records.specs.City.{is_city};
ghost use Rattle.numeric.specs.Rules.{rule, ruled};
ghost use Rattle.tdcp.specs.Steps as code;
ghost use Rattle.tdcp.specs.Valid as spec;

use crate::displacement::{Interval, Settings};
use estimate_rounds::rules::check_rows;
use numeric::real::{in_range, is_finite};
use numeric::refusal::Refusal;
use records::pair::Profile;

// Checks rule 3 of a displacement.
pub fn settings_pass(s: Settings) -> bool
    ensures { result ≡ spec.settings_pass s }
{
    in_range(s.screen)
        & in_range(s.sigma_a)
        & in_range(s.sigma_b)
        & in_range(s.huber)
        & in_range(s.mask)
        & !(50 < s.rounds)
}

// Checks rule 5.
pub(crate) fn is_bad_interval(dt: f64) -> bool
    ensures { result ≡ spec.bad_interval dt }
{
    !is_finite(dt) | !(0.0 < dt) | (604800.0 < dt)
}

// Returns the seconds of an interval, or 13.
fn apart(since: Interval) -> Result<f64, Refusal>
    ensures { result ≡ ruled Err (rule BadTime (not (spec.is_timed since)) ∷ []) (Ok (spec.dt_of since)) }
{
    match since {
        Interval::Seconds(dt) => Ok(dt),
        Interval::Between(previous, current) => current.seconds_since(previous),
    }
}

// Checks rules 3, 4, 13 and 5 of a displacement and returns the seconds of its interval. `sound` says whether every record and the receiver pass rule 4.
pub(crate) fn seconds_of(settings: Settings, sound: bool, since: Interval) -> Result<f64, Refusal>
    ensures { result ≡ ruled Err (code.given_rules settings sound since) (Ok (spec.dt_of since)) }
{
    if !settings_pass(settings) {
        return Err(Refusal::SettingOutOfRange);
    }
    if !sound {
        return Err(Refusal::RecordOutOfRange);
    }
    let dt = apart(since)?;
    if is_bad_interval(dt) {
        return Err(Refusal::BadInterval);
    }
    Ok(dt)
}

// Checks whether, in the city profile, GPS (1) or Galileo (6) is absent among these constellations.
pub(crate) fn is_uncertified(profile: Profile, constellation: &[u8]) -> bool
    ensures { result ≡ (is_city profile && not (has constellation.now 1 && has constellation.now 6)) }
{
    match profile {
        Profile::General => false,
        Profile::City(_) => !(constellation.contains(&1) & constellation.contains(&6)),
    }
}

// Checks rules 7 to 9 of a displacement, then 20.
pub(crate) fn check_pairs(
    pairs: usize,
    kept: usize,
    slots: usize,
    uncertified: bool,
) -> Result<(), Refusal>
    ensures { result ≡ ruled Err (spec.few_rules pairs kept slots ++ (rule NotCertified uncertified ∷ [])) (Ok tt) }
{
    if pairs < 6 {
        return Err(Refusal::TooFewPairs);
    }
    check_rows(kept, slots)?;
    if uncertified {
        return Err(Refusal::NotCertified);
    }
    Ok(())
}
