// What the rounds of a fix and of a displacement share.
ghost use Rattle.std.specs.Prelude.{◌≡◌, ℕ, ◌≤◌, min};
ghost use Rattle.cholesky.specs.Factor.{at};
ghost use Rattle.estimate_rounds.specs.Rounds as spec;

use numeric::real::hypot;

// Adds the step to the first n elements of the state.
pub fn move_by(n: usize, dx: [f64; 9], x: [f64; 9]) -> [f64; 9]
    requires { n ≤ 9 }
    ensures { result ≡ spec.moved n x dx }
{
    let mut y = x;
    for i in 0..n {
        y[i] = x[i] + dx[i];
    }
    y
}

// Checks that the first three elements of a step together are shorter than the limit.
pub fn is_short(limit: f64, dx: [f64; 9]) -> bool
    ensures { result ≡ spec.short_step limit dx }
{
    hypot(hypot(dx[0], dx[1]), dx[2]) < limit
}

// Returns place s of the state, a NaN where there is none.
pub fn state_at(x: [f64; 9], s: usize) -> f64
    ensures { result ≡ at x s }
{
    if s < 9 { x[s] } else { 0.0 / 0.0 }
}

// Returns the rounds as an estimator takes them: from 51 on they are refused alike.
pub fn rounds_of(rounds: usize) -> u32
    ensures { result ≡ min rounds 51 }
{
    rounds.min(51) as u32
}
