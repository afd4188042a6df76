// The diagonal of an inverse, by the factor.
ghost use Rattle.std.specs.Prelude.{◌≡◌, ◌≤◌};
ghost use Rattle.lists.specs.Memory.{lent};
ghost use Rattle.cholesky.specs.Factor.{Unused};
ghost use Rattle.quality.specs.Quality as spec;
ghost use Rattle.quality.specs.Steps.{Forwarded, SolvedForward, SolvedBack};

use cholesky::factor::solve_used;
use numeric::real::is_finite;
use root::sqrt::sqrt;

// Solves l y = b for the first n unknowns and three right sides by forward substitution: x, y and z hold the right sides, and then the solutions.
// Side by side they take half the time that they take one after the other, since a division waits for the one before it.
fn forward_three(n: usize, l: &[[f64; 9]; 9], x: &mut [f64; 9], y: &mut [f64; 9], z: &mut [f64; 9])
    requires { n ≤ 9 }
    ensures { SolvedForward n l (lent x) × SolvedForward n l (lent y) × SolvedForward n l (lent z) }
{
    for i in 0..n {
        let mut s = x[i];
        let mut t = y[i];
        let mut u = z[i];
        for k in 0..i {
            let f = l[i][k];
            s = s - f * x[k];
            t = t - f * y[k];
            u = u - f * z[k];
        }
        let d = l[i][i];
        x[i] = s / d;
        y[i] = t / d;
        z[i] = u / d;
    }
}

// Solves lᵀ x = y for three right sides by back substitution, from the last row up. The unknowns from n on are unused: they stay 0 and add nothing.
fn back_three(n: usize, l: &[[f64; 9]; 9], x: &mut [f64; 9], y: &mut [f64; 9], z: &mut [f64; 9])
    requires { (n ≤ 9) × Unused n l.now × Forwarded n x.old × Forwarded n y.old × Forwarded n z.old }
    ensures { SolvedBack l (lent x) × SolvedBack l (lent y) × SolvedBack l (lent z) }
{
    for m in 0..n {
        let i = n - 1 - m;
        let mut s = x[i];
        let mut t = y[i];
        let mut u = z[i];
        for k in 0..m {
            let j = i + 1 + k;
            let f = l[j][i];
            s = s - f * x[j];
            t = t - f * y[j];
            u = u - f * z[j];
        }
        let d = l[i][i];
        x[i] = s / d;
        y[i] = t / d;
        z[i] = u / d;
    }
}

// Returns the root of the sum of the inverse's first three diagonal elements, one column after the other, given the factor l of n unknowns.
fn pdop_by_columns(n: usize, l: &[[f64; 9]; 9]) -> f64
    requires { (3 ≤ n) × (n ≤ 9) × Unused n l.now }
    ensures { result ≡ spec.pdop_of l.now }
{
    let mut x = [0.0; 9];
    x[0] = 1.0;
    let u = solve_used(n, l, x);
    let mut y = [0.0; 9];
    y[1] = 1.0;
    let v = solve_used(n, l, y);
    let mut z = [0.0; 9];
    z[2] = 1.0;
    let w = solve_used(n, l, z);
    sqrt(0.0 + u[0] + v[1] + w[2])
}

// Returns the same from the three columns side by side, or one after the other where a place is not finite.
pub(crate) fn pdop_of(n: usize, l: &[[f64; 9]; 9]) -> f64
    requires { (3 ≤ n) × (n ≤ 9) × Unused n l.now }
    ensures { result ≡ spec.pdop_of l.now }
{
    let mut x = [0.0; 9];
    x[0] = 1.0;
    let mut y = [0.0; 9];
    y[1] = 1.0;
    let mut z = [0.0; 9];
    z[2] = 1.0;
    forward_three(n, l, &mut x, &mut y, &mut z);
    let last = n - 1;
    let u = x[last];
    let v = y[last];
    let w = z[last];
    if is_finite(u) & is_finite(v) & is_finite(w) {
        back_three(n, l, &mut x, &mut y, &mut z);
        return sqrt(0.0 + x[0] + y[1] + z[2]);
    }
    pdop_by_columns(n, l)
}
