// The position from one epoch.
ghost use Rattle.std.specs.Prelude.{◌≡◌, List, length, ℕ, ◌≤◌, Float};
ghost use Rattle.normal_equations.specs.Steps.{lent_rows};
ghost use Rattle.numeric.specs.Rules.{Rule, ruled};
ghost use Rattle.records.specs.Record.{counted_observations};
ghost use Rattle.wls.specs.Fix as spec;
ghost use Rattle.wls.specs.Steps.{SigmasOf, Rowed, Fitted, concluded_at, rated_fix};

use crate::chi::chi_at;
use crate::valid::check_fix;
use clocks::clocks::Clocks;
use estimate_rounds::rounds::{is_short, move_by, state_at};
use estimate_rounds::rules::check_rows;
use normal_equations::columns::{Columns, Table};
use numeric::order::pattern;
use numeric::real::is_finite;
use numeric::refusal::Refusal;
use numeric::sight::geometry;
use numeric::vec3::Vec3;
use quality::figures::dilution_of;
use records::mask::{above_mask, clocks_of};
use records::record::Observations;
use robust::round::round_step;
use robust::sigma::elevation_sigma;

// The settings of a fix: weighting and robustness.
#[derive(Clone, Copy)]
pub struct Settings {
    pub sigma_a: f64,
    pub sigma_b: f64,
    pub huber: f64,
    pub mask: f64,
    pub rounds: u32,
}

// The position, the number of observations used, and the quality of the fit.
#[derive(Clone, Copy)]
pub struct Solution {
    pub position: Vec3,
    pub used: usize,
    pub chi: f64,
    pub pdop: f64,
}

// Returns the sigma of each observation, which no round changes.
pub(crate) fn sigmas_of(settings: Settings, sky: Observations) -> [f64; 64]
    requires { sky.count ≤ 64 }
    ensures { SigmasOf settings sky result }
{
    let count = sky.count;
    let mut sigma = [0.0; 64];
    for j in 0..count {
        let o = sky.observation[j];
        let s = elevation_sigma(o.elevation, settings.sigma_a, settings.sigma_b);
        sigma[j] = s;
    }
    sigma
}

// Writes the rows of the observations at the state s, except their sigmas: lines of sight, clocks and residuals. Refuses one by 15.
pub(crate) fn rows_at(
    k: Clocks,
    sky: Observations,
    s: [f64; 9],
    rows: &mut Table,
) -> Result<(), Refusal>
    requires { sky.count ≤ 64 }
    ensures rowed { Rowed k sky.count sky.observation s result rows.new }
    ensures sigma_kept { rows.new.sigma ≡ rows.old.sigma }
{
    let count = sky.count;
    let at = Vec3 {
        x: s[0],
        y: s[1],
        z: s[2],
    };
    for j in 0..count {
        let o = sky.observation[j];
        let g = geometry(o.satellite, at)?;
        let q = k.slot(o.constellation);
        let r = pattern(o.pseudorange - (g.range + state_at(s, q)));
        rows.x[j] = g.x;
        rows.y[j] = g.y;
        rows.z[j] = g.z;
        rows.clock[j] = q;
        rows.residual[j] = r;
    }
    Ok(())
}

// Runs the rounds over the observations, starting at the state. Writes the state that they reach and the rows of the last round, except the sigmas, and returns
// how many rows it has. On refusal, the lent memory is of no use.
fn fit_rounds(
    settings: Settings,
    k: Clocks,
    sky: Observations,
    rows: &mut Table,
    state: &mut [f64; 9],
) -> Result<usize, Refusal>
    requires count_bound { (sky.count ≤ 64) × (k.count ≤ 6) }
    requires sigmas_of { SigmasOf settings sky rows.old.sigma }
    ensures fitted { Fitted (spec.fit_at settings k (counted_observations sky) state.old) result state.new rows.new }
    ensures sigma_kept { rows.new.sigma ≡ rows.old.sigma }
{
    let n = 3 + k.count;
    let count = sky.count;
    let mut used: usize = 0;
    for i in 0..settings.rounds {
        let at = *state;
        rows_at(k, sky, at, rows)?;
        used = count;
        let dx = round_step(rows.first(count), n, settings.huber)?;
        *state = move_by(n, dx, at);
        if is_short(1e-3, dx) {
            return Ok(count);
        }
    }
    Ok(used)
}

// Runs the rounds over the observations, starting at the guess. Returns the fix, or the refusal.
pub(crate) fn fit_sky(
    settings: Settings,
    k: Clocks,
    sky: Observations,
    guess: Vec3,
) -> Result<Solution, Refusal>
    requires { (sky.count ≤ 64) × (k.count ≤ 6) }
    ensures { result ≡ spec.found_over settings k (counted_observations sky) guess }
{
    let mut rows = Table::EMPTY;
    rows.sigma = sigmas_of(settings, sky);
    let mut state = [0.0; 9];
    state[0] = guess.x;
    state[1] = guess.y;
    state[2] = guess.z;
    let used = fit_rounds(settings, k, sky, &mut rows, &mut state)?;
    let chi = chi_at(k, sky, &rows.sigma, state);
    found_at(rows.first(used), 3 + k.count, state, chi)
}

// Returns the answer at the state s that the rounds reach, given the last rows and chi there. Refuses by 10 where s is not finite or the unweighted matrix
// has no factor.
fn found_at(
    rows: Columns,
    n: usize,
    s: [f64; 9],
    chi: Result<f64, Refusal>,
) -> Result<Solution, Refusal>
    requires { (3 ≤ n) × (n ≤ 9) }
    ensures { (sights : List Rule) (c : Float) → chi ≡ ruled Err sights (Ok c)
        → result ≡ concluded_at n (lent_rows rows.entry) sights c s }
{
    let position = Vec3 {
        x: s[0],
        y: s[1],
        z: s[2],
    };
    if position.is_finite() {
        if let Ok(pdop) = dilution_of(rows, n) {
            return rated(position, rows.residual.len(), chi, pdop);
        }
    }
    Err(Refusal::FitFailed)
}

// Returns the answer of a fit that 10 lets pass: 15 at the returned position, 14 where chi or pdop is not finite, or the solution.
fn rated(
    position: Vec3,
    used: usize,
    chi: Result<f64, Refusal>,
    pdop: f64,
) -> Result<Solution, Refusal>
    ensures { result ≡ rated_fix position used pdop chi }
{
    let chi = chi?;
    if is_finite(chi) & is_finite(pdop) {
        Ok(Solution {
            position,
            used,
            chi,
            pdop,
        })
    } else {
        Err(Refusal::QualityNotFinite)
    }
}

// Returns the receiver's position from one epoch and the quality of the fit, or the refusal. The first round begins at the guess.
pub fn solve_full(
    observations: Observations,
    guess: Vec3,
    settings: Settings,
) -> Result<Solution, Refusal>
    ensures { spec.Promised (spec.input observations guess settings) result }
{
    check_fix(observations, guess, settings)?;
    let kept = above_mask(observations, settings.mask);
    let clocks = clocks_of(kept);
    check_rows(kept.count, clocks.count)?;
    fit_sky(settings, clocks, kept, guess)
}

// Returns the receiver's position from one epoch, or the refusal.
pub fn solve(observations: Observations, guess: Vec3, settings: Settings) -> Result<Vec3, Refusal>
    ensures { spec.PositionPromised (spec.input observations guess settings) result }
{
    let s = solve_full(observations, guess, settings)?;
    Ok(s.position)
}
