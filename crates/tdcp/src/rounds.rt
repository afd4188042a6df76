// The rounds over the carrier pairs of a displacement.
ghost use Rattle.std.specs.Prelude.{◌≡◌, length, ◌≤◌};
ghost use Rattle.tdcp.specs.Steps as code;

use crate::displacement::Settings;
use clocks::clocks::Clocks;
use estimate_rounds::rounds::{is_short, move_by, state_at};
use normal_equations::columns::Columns;
use numeric::order::pattern;
use numeric::refusal::Refusal;
use robust::round::round_step;
use robust::sigma::elevation_sigma;

// Returns the residual of an observed value at the state x, with the line of sight u, v, w and the clock s, as a pattern.
pub(crate) fn residual_of(o: f64, u: f64, v: f64, w: f64, s: usize, x: [f64; 9]) -> u64
    ensures { result ≡ code.residual_of o u v w s x }
{
    pattern(o - (u * x[0] + v * x[1] + w * x[2]) - state_at(x, s))
}

// Writes the residual of each pair at a state.
pub(crate) fn residuals_at(
    x: &[f64; 64],
    y: &[f64; 64],
    z: &[f64; 64],
    clock: &[usize; 64],
    observed: &[f64],
    at: [f64; 9],
    residual: &mut [u64; 64],
)
    requires { (length observed.now ≤ 64) × (length residual.old ≡ 64) }
    ensures { code.ResidualsAt x.now y.now z.now clock.now observed.now at
        residual.new }
{
    let count = observed.len();
    for j in 0..count {
        let o = observed[j];
        let u = x[j];
        let v = y[j];
        let w = z[j];
        let s = clock[j];
        let d = residual_of(o, u, v, w, s, at);
        residual[j] = d;
    }
}

// Writes the clock of each pair, which no round changes.
pub(crate) fn clocks_into(
    k: Clocks,
    constellation: &[u8; 64],
    count: usize,
    clock: &mut [usize; 64],
)
    requires { (count ≤ 64) × (length clock.old ≡ 64) }
    ensures { code.ClocksAt k constellation.now count clock.new }
{
    for j in 0..count {
        let c = constellation[j];
        let s = k.slot(c);
        clock[j] = s;
    }
}

// Writes the sigma of each pair, which no round changes.
pub(crate) fn sigmas_into(
    settings: Settings,
    elevation: &[f64; 64],
    count: usize,
    sigma: &mut [f64; 64],
)
    requires { (count ≤ 64) × (length sigma.old ≡ 64) }
    ensures { code.SigmasAt settings elevation.now count sigma.new }
{
    for j in 0..count {
        let e = elevation[j];
        let t = elevation_sigma(e, settings.sigma_a, settings.sigma_b);
        sigma[j] = t;
    }
}

// Runs the rounds over the pairs of the columns, with their clocks and sigmas. Writes the state that they reach to `state`; on refusal, changes nothing.
pub(crate) fn fit_pairs(
    settings: Settings,
    k: Clocks,
    x: &[f64; 64],
    y: &[f64; 64],
    z: &[f64; 64],
    clock: &[usize; 64],
    sigma: &[f64; 64],
    observed: &[f64],
    state: &mut [f64; 9],
) -> Result<(), Refusal>
    requires { (length observed.now ≤ 64) × (k.count ≤ 6) }
    ensures { code.FitEnds settings k x.now y.now z.now clock.now sigma.now
        observed.now result state.old state.new }
{
    let count = observed.len();
    let mut residual = [0u64; 64];
    let mut at = [0.0; 9];
    for i in 0..settings.rounds {
        residuals_at(x, y, z, clock, observed, at, &mut residual);
        let n = 3 + k.count;
        let rows = Columns {
            x,
            y,
            z,
            clock,
            sigma,
            residual: &residual[..count],
        };
        let dx = round_step(rows, n, settings.huber)?;
        let next = move_by(n, dx, at);
        at = next;
        if is_short(1e-5, dx) {
            *state = at;
            return Ok(());
        }
    }
    *state = at;
    Ok(())
}
