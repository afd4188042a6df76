// The quality of a displacement's fit: chi and pdop of its pairs.
ghost use Rattle.std.specs.Prelude.{◌≡◌, length, ◌≤◌};
ghost use Rattle.tdcp.specs.Steps as code;

use crate::rounds::residuals_at;
use normal_equations::columns::Columns;
use numeric::refusal::Refusal;
use quality::figures::{Figures, quality_of};

// Returns chi and pdop of the pairs of the columns at a state of n unknowns, with their clocks and sigmas, or the refusal.
pub(crate) fn quality_at(
    n: usize,
    x: &[f64; 64],
    y: &[f64; 64],
    z: &[f64; 64],
    clock: &[usize; 64],
    sigma: &[f64; 64],
    observed: &[f64],
    at: [f64; 9],
) -> Result<Figures, Refusal>
    requires { (length observed.now ≤ 64) × (3 ≤ n) × (n ≤ 9) }
    ensures { code.QualityIs n x.now y.now z.now clock.now sigma.now
        observed.now at result }
{
    let count = observed.len();
    let mut residual = [0u64; 64];
    residuals_at(x, y, z, clock, observed, at, &mut residual);
    let rows = Columns {
        x,
        y,
        z,
        clock,
        sigma,
        residual: &residual[..count],
    };
    quality_of(rows, n)
}
