// One round of the robust least squares.
ghost use Rattle.std.specs.Prelude.{◌≡◌, ◌≤◌};
ghost use Rattle.robust.specs.Round as spec;
ghost use Rattle.robust.specs.Steps.{stepping_of};
ghost use Rattle.normal_equations.specs.Steps.{lent_rows};
ghost use Rattle.robust.specs.Step.{padded_step, step_of, StepPromised};

use cholesky::factor::{factor_used, solve_used};
use median::centre::centre_scale;
use normal_equations::columns::{Columns, Table};
use normal_equations::equations::normal;
use normal_equations::row::Rows;
use numeric::refusal::Refusal;

// Runs one round over the rows of the columns and returns its step.
pub fn round_step(rows: Columns, n: usize, huber: f64) -> Result<[f64; 9], Refusal>
    requires { n ≤ 9 }
    ensures { result ≡ stepping_of (spec.round_of (lent_rows rows.entry) n huber) }
{
    let c = centre_scale(rows.residual)?;
    let mut a = [[0.0; 9]; 9];
    let mut b = [0.0; 9];
    normal(rows, n, c, huber, &mut a, &mut b);
    let m = n.max(1);
    let mut l = [[0.0; 9]; 9];
    if factor_used(m, &a, &mut l) {
        Ok(solve_used(m, &l, b))
    } else {
        Err(Refusal::FitFailed)
    }
}

// Returns the first n elements of the step, and zeros beyond them.
fn first_of(n: usize, step: [f64; 9]) -> [f64; 9]
    requires { n ≤ 9 }
    ensures { result ≡ padded_step n step }
{
    let mut x = step;
    for i in n..9 {
        x[i] = 0.0;
    }
    x
}

// Runs one round by itself and writes its step to dx, zeros beyond the unknowns; refused by 2, 4 or 10, leaves dx unchanged.
pub fn step(rows: Rows, n: usize, huber: f64, dx: &mut [f64; 9]) -> Result<(), Refusal>
    ensures { StepPromised (step_of rows n huber) result dx.old dx.new }
{
    if rows.count > 64 {
        return Err(Refusal::TooMany);
    }
    if n > 9 {
        return Err(Refusal::RecordOutOfRange);
    }
    let count = rows.count;
    let mut table = Table::EMPTY;
    for k in 0..count {
        let r = rows.row[k];
        if r.clock > 8 {
            return Err(Refusal::RecordOutOfRange);
        }
        table.x[k] = r.unit.x;
        table.y[k] = r.unit.y;
        table.z[k] = r.unit.z;
        table.clock[k] = r.clock;
        table.sigma[k] = r.sigma;
        table.residual[k] = r.residual;
    }
    let t = round_step(table.first(count), n, huber)?;
    *dx = first_of(n, t);
    Ok(())
}
