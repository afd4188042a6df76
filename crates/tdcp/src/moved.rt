// The displacement of carrier pairs: the screen, the rules on what it keeps, and the end of the rounds.
ghost use Rattle.std.specs.Prelude.{◌≡◌, length, ◌≤◌};
ghost use Rattle.lists.specs.Walk.{every};
ghost use Rattle.records.specs.City.{is_city};
ghost use Rattle.records.specs.Steps.{lent_pairs};
ghost use Rattle.records.specs.Pair.{counted_pairs, seen};
ghost use Rattle.tdcp.specs.Displacement as spec;
ghost use Rattle.tdcp.specs.Rated as rated;
ghost use Rattle.tdcp.specs.Steps as code;

use crate::displacement::{Delta, RatedDelta, Settings};
use crate::rating::quality_at;
use crate::rounds::{clocks_into, fit_pairs, sigmas_into};
use crate::valid::{check_pairs, is_uncertified};
use clocks::clocks::Clocks;
use numeric::refusal::Refusal;
use numeric::vec3::Vec3;
use records::pair::{Pairs, Profile};
use records::screen::{clocks_of, keep_into};

// Returns the displacement at the state x, or 10 where it is not finite.
fn moved_to(x: [f64; 9], used: usize, screened: usize) -> Result<Delta, Refusal>
    ensures { result ≡ code.concluded_at used screened x }
{
    let delta = Vec3 {
        x: x[0],
        y: x[1],
        z: x[2],
    };
    if delta.is_finite() {
        return Ok(Delta {
            delta: delta,
            used: used,
            screened: screened,
        });
    }
    Err(Refusal::FitFailed)
}

// Runs the rounds over the pairs of the columns. Returns the displacement at the state that they reach, with its figures on request, or the refusal.
fn moved_over(
    settings: Settings,
    k: Clocks,
    x: &[f64; 64],
    y: &[f64; 64],
    z: &[f64; 64],
    constellation: &[u8; 64],
    elevation: &[f64; 64],
    observed: &[f64],
    screened: usize,
    wanted: bool,
) -> Result<RatedDelta, Refusal>
    requires { (length observed.now ≤ 64) × (k.count ≤ 6) }
    ensures { let pairs = lent_pairs x y z constellation elevation observed in
        result ≡ rated.answered_by wanted (code.quality_over settings k pairs) (code.moved_over settings k pairs screened) }
{
    let used = observed.len();
    let mut clock = [0usize; 64];
    clocks_into(k, constellation, used, &mut clock);
    let mut sigma = [0.0; 64];
    sigmas_into(settings, elevation, used, &mut sigma);
    let mut state = [0.0; 9];
    fit_pairs(settings, k, x, y, z, &clock, &sigma, observed, &mut state)?;
    let d = moved_to(state, used, screened)?;
    if !wanted {
        return Ok(RatedDelta {
            moved: d,
            chi: 0.0,
            pdop: 0.0,
        });
    }
    let f = quality_at(3 + k.count, x, y, z, &clock, &sigma, observed, state)?;
    Ok(RatedDelta {
        moved: d,
        chi: f.chi,
        pdop: f.pdop,
    })
}

// Finishes a displacement from its carrier pairs: screens them, checks rules 15, 7 to 9 (and 20 in the city profile), runs the rounds, checks 10. Rule 15 is checked
// after screening: returning earlier makes the compiler copy the pairs.
pub(crate) fn moved_by(
    settings: Settings,
    all: Pairs,
    profile: Profile,
    wanted: bool,
) -> Result<RatedDelta, Refusal>
    requires { (all.count ≤ 64) × (all.seen ≡ every seen (counted_pairs all)) }
    ensures { result ≡ rated.answered_by wanted (code.quality_by settings (counted_pairs all))
        (spec.moved_by (is_city profile) settings (counted_pairs all)) }
{
    let pairs = all.count;
    let seen = all.seen;
    let mut x = [0.0; 64];
    let mut y = [0.0; 64];
    let mut z = [0.0; 64];
    let mut constellation = [0u8; 64];
    let mut elevation = [0.0; 64];
    let mut observed = [0.0; 64];
    let used = keep_into(
        all,
        settings.screen,
        &mut x,
        &mut y,
        &mut z,
        &mut constellation,
        &mut elevation,
        &mut observed,
    );
    if !seen {
        return Err(Refusal::OnReceiver);
    }
    let clocks = clocks_of(&constellation[..used]);
    let uncertified = is_uncertified(profile, &constellation[..used]);
    check_pairs(pairs, used, clocks.count, uncertified)?;
    moved_over(
        settings,
        clocks,
        &x,
        &y,
        &z,
        &constellation,
        &elevation,
        &observed[..used],
        pairs - used,
        wanted,
    )
}
