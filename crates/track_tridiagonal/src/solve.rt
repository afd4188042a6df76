// The solution of tridiagonal equations, in place.
ghost use Rattle.std.specs.Prelude.{◌≡◌, cond, ◌+◌, ◌*◌, ◌<◌, ◌≤◌, length};
ghost use Rattle.exact.specs.Float.{◌⊖◌, ◌⊗◌, ◌⊘◌};
ghost use Rattle.track_tridiagonal.specs.Rows.{Axes, axis_in, Solved};
ghost use Rattle.track_tridiagonal.specs.Tridiagonal.{vanishing, NoNan};
ghost use Rattle.track_tridiagonal.specs.Steps.{NumbersAt, FirstRow, RowEliminated, Eliminated, RowSolved, Substituted, goes_on};

use numeric::real::{abs, is_finite};

// A row of one system once the rows above are eliminated, and whether the elimination can go on. A flag beside the numbers, and no `Option` around them: one branch
// tests the three rows of a step.
#[derive(Clone, Copy)]
pub struct Row {
    pub pivot: f64,
    pub right: f64,
    pub good: bool,
}

// Tells whether a pivot vanishes. A NaN does not.
fn vanishes(p: f64) -> bool
    ensures { result ≡ vanishing p }
{
    abs(p) < 2.2250738585072014e-308
}

// Tells whether the elimination can go on from a row of diagonal d, pivot p and right side q.
fn goes_on(d: f64, p: f64, q: f64) -> bool
    ensures { result ≡ goes_on d p q }
{
    let held = !(d <= 0.0);
    let stands = !vanishes(p);
    held & (stands & (!(p != p) & !(q != q)))
}

// Reads the first row of the system whose diagonal starts at `at`.
fn first_row(w: &[u64], at: usize) -> Row
    requires { (at + 6 < length w.now) × NumbersAt w.now at (at + 6) (at + 6) }
    ensures { FirstRow w.now at result }
{
    let p = f64::from_bits(w[at]);
    let q = f64::from_bits(w[at + 6]);
    let good = goes_on(p, p, q);
    Row {
        pivot: p,
        right: q,
        good,
    }
}

// Eliminates an unknown from the row below. Its own row, with its diagonal at `at`, is `above`.
fn eliminate_row(w: &mut [u64], at: usize, above: Row) -> Row
    requires { (at + 15 < length w.old) × NumbersAt w.old (at + 3) (at + 9) (at + 15) }
    ensures { RowEliminated w.old at above result w.new }
{
    let u = f64::from_bits(w[at + 3]);
    let d = f64::from_bits(w[at + 9]);
    let r = f64::from_bits(w[at + 15]);
    let f = u / above.pivot;
    let p = d - f * u;
    let q = r - f * above.right;
    let good = goes_on(d, p, q);
    let row = Row {
        pivot: p,
        right: q,
        good,
    };
    if !good {
        return row;
    }
    w[at + 9] = f64::to_bits(p);
    w[at + 15] = f64::to_bits(q);
    row
}

// Eliminates from the first row to the last. False where a system cannot be solved.
fn eliminate(w: &mut [u64], n: usize) -> bool
    requires { (0 < n) × (n * 9 ≤ length w.old) × Axes (λ t. NoNan (axis_in w.old t) n) }
    ensures { Eliminated w.old n result w.new }
{
    let mut x = first_row(&w[..], 0);
    let mut y = first_row(&w[..], 1);
    let mut z = first_row(&w[..], 2);
    for i in 0..n - 1 {
        if !(x.good & (y.good & z.good)) {
            return false;
        }
        let at = i * 9;
        x = eliminate_row(&mut *w, at, x);
        y = eliminate_row(&mut *w, at + 1, y);
        z = eliminate_row(&mut *w, at + 2, z);
    }
    x.good & (y.good & z.good)
}

// Computes an unknown from its row and the unknown x of the next row, where there is one: one flag tells it of the three systems.
fn unknown(last: bool, d: f64, u: f64, r: f64, x: f64) -> f64
    ensures { result ≡ cond last r (r ⊖ u ⊗ x) ⊘ d }
{
    if last {
        return r / d;
    }
    (r - u * x) / d
}

// Solves the row with its diagonal at `at`, by the unknown x of the next row, and replaces the right side by its unknown, if finite.
fn solve_row(w: &mut [u64], at: usize, last: bool, x: f64) -> f64
    requires { (at + 6 < length w.old) × NumbersAt w.old at (at + 3) (at + 6) }
    ensures { RowSolved w.old at last x result w.new }
{
    let d = f64::from_bits(w[at]);
    let u = f64::from_bits(w[at + 3]);
    let r = f64::from_bits(w[at + 6]);
    let v = unknown(last, d, u, r, x);
    if !is_finite(v) {
        return v;
    }
    w[at + 6] = f64::to_bits(v);
    v
}

// Substitutes from the last row to the first. False where an unknown is not finite.
fn substitute(w: &mut [u64], n: usize) -> bool
    requires { (n * 9 ≤ length w.old) × Axes (λ t. NoNan (axis_in w.old t) n) }
    ensures { Substituted w.old n result w.new }
{
    let mut x = 0.0;
    let mut y = 0.0;
    let mut z = 0.0;
    for k in (0..n).rev() {
        let last = k + 1 == n;
        let at = k * 9;
        x = solve_row(&mut *w, at, last, x);
        y = solve_row(&mut *w, at + 1, last, y);
        z = solve_row(&mut *w, at + 2, last, z);
        if !(is_finite(x) & (is_finite(y) & is_finite(z))) {
            return false;
        }
    }
    true
}

// Solves the three systems of n equations, in place of their right sides. False where a diagonal is at or below 0, a pivot vanishes or an unknown is not finite.
pub fn solve(w: &mut [u64], n: usize) -> bool
    requires { (0 < n) × (n * 9 ≤ length w.old) × Axes (λ t. NoNan (axis_in w.old t) n) }
    ensures { Solved w.old n result w.new }
{
    if eliminate(&mut *w, n) {
        return substitute(&mut *w, n);
    }
    false
}
