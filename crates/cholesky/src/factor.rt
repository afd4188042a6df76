// The Cholesky factor of a matrix of nine rows, and the solution by it: matrix.rs, `Cholesky::new` and its `solve`.
ghost use Rattle.numeric.specs.Refusal.{answer_number};
ghost use Rattle.std.specs.Prelude.{◌≡◌, ◌-◌, ◌≤◌, ◌<◌, T, replicate};
ghost use Rattle.std.specs.Float.{binary64};
ghost use Rattle.std.specs.Float.Ieee.{fits};
ghost use Rattle.cholesky.specs.Factor.{zeros, is_pivot, forward_to, back_to, solution_of, at, Unused, UnusedPlaces};
ghost use Rattle.cholesky.specs.Steps.{sum_of, filled, ones_marked, FactoredUsed};
ghost use Rattle.cholesky.specs.Answer.{FactorPromised};

use numeric::real::is_finite;
use numeric::refusal::Refusal;
use root::tangent::{no_tangent, sqrt_near, tangent_at};

// Checks that a pivot is finite and above 0; a NaN is neither above 0 nor at most the largest number. Compared with infinity instead, the two comparisons
// compile to a test of bits, which takes more than twice the instructions.
fn is_pivot(p: f64) -> bool
    ensures { result ≡ is_pivot p }
{
    (0.0 < p) & (p <= 1.7976931348623157e308)
}

// Returns x, which is a binary64 as every float of a program is; reading it out of a matrix does not tell that.
fn held(x: f64) -> f64
    ensures { (result ≡ x) × T (fits binary64 x) }
{
    x
}

// Returns j, in a form that tells the compiler that it is at most 7, so that it unrolls the loops up to it. With a comparison in place of the remainder
// it does not unroll those in functions of their own, and the factor of nine unknowns takes 9 percent longer.
fn few(j: usize) -> usize
    requires { j ≤ 7 }
    ensures { result ≡ j }
{
    j % 8
}

// The next pivot's row: the sum of its element in column j, and its pivot less the products of the columns before j.
#[derive(Clone, Copy)]
struct Next {
    sum: f64,
    pivot: f64,
}

// Returns row m of the matrix at column j and at its diagonal, less the first j products of rows m and j and of row m with itself.
fn ahead(m: usize, j: usize, a: &[[f64; 9]; 9], l: &[[f64; 9]; 9]) -> Next
    requires { (m < 9) × (j ≤ 7) }
    ensures { (result.sum ≡ sum_of j m j a.now l.now) × (result.pivot ≡ sum_of j m m a.now l.now) }
{
    let c = few(j);
    let mut s = a[m][j];
    let mut q = a[m][m];
    for k in 0..c {
        let x = l[m][k];
        s = s - x * l[j][k];
        q = q - x * x;
    }
    Next { sum: s, pivot: q }
}

// Returns row i of the matrix at column j, less the first j products of rows i and j.
fn sum(i: usize, j: usize, a: &[[f64; 9]; 9], l: &[[f64; 9]; 9]) -> f64
    requires { (i < 9) × (j ≤ 7) }
    ensures { result ≡ sum_of j i j a.now l.now }
{
    let c = few(j);
    let mut s = a[i][j];
    for k in 0..c {
        s = s - l[i][k] * l[j][k];
    }
    s
}

// Computes the elements of column j in the rows from i up to, not including, n; d is the column's diagonal.
fn fill(j: usize, d: f64, i: usize, n: usize, a: &[[f64; 9]; 9], l: &mut [[f64; 9]; 9])
    requires { (j ≤ 7) × (j < i) × (i ≤ n) × (n ≤ 9) }
    ensures { l.new ≡ filled (n - i) j d i a.now l.old }
{
    for r in i..n {
        let s = sum(r, j, a, l);
        l[r][j] = s / d;
    }
}

// Writes 1 on the diagonal of the rows from n on.
fn mark(n: usize, l: &mut [[f64; 9]; 9])
    requires { n ≤ 9 }
    ensures { l.new ≡ ones_marked (9 - n) n l.old }
{
    for i in n..9 {
        l[i][i] = 1.0;
    }
}

// Factors a in l, which holds zeros, and returns true; where a pivot is refused, returns false and leaves zeros. The unknowns from n on are unused: only the
// first n rows are computed, and the rows below them are the identity's. Only the lower triangle of a is read.
// The factor is computed column by column, since the sums of a column do not wait for the root of its pivot. p is the pivot of column j, and q the next
// pivot less the products of the columns before j: q - s * s / p is so near that pivot that the tangent there gives its root at once.
pub fn factor_used(n: usize, a: &[[f64; 9]; 9], l: &mut [[f64; 9]; 9]) -> bool
    requires { (0 < n) × (n ≤ 9) × Unused n a.now × (l.old ≡ replicate 9 zeros) }
    ensures { FactoredUsed n a.now l.old result l.new }
{
    let mut p = held(a[0][0]);
    let mut t = no_tangent();
    for j in 0..n {
        if is_pivot(p) {
            let d = sqrt_near(p, t);
            l[j][j] = d;
            let m = j + 1;
            if m == n {
                mark(n, l);
                return true;
            }
            let w = ahead(m, j, a, l);
            let s = w.sum;
            let q = w.pivot;
            let r = 1.0 / p;
            t = tangent_at(q - s * s * r);
            let v = s / d;
            l[m][j] = v;
            p = q - v * v;
            fill(j, d, m + 1, n, a, l);
        } else {
            *l = [[0.0; 9]; 9];
            return false;
        }
    }
    false
}

// Returns `Done` and writes the factor of a to l, or returns the refusal and leaves l unchanged. Only the lower triangle of a is read.
// The factor is made in l itself: made beside it and copied at the end, factor and solution together took 7 percent longer.
pub fn factor(a: [[f64; 9]; 9], l: &mut [[f64; 9]; 9]) -> Result<(), Refusal>
    ensures { FactorPromised a result l.old l.new }
{
    let kept = *l;
    *l = [[0.0; 9]; 9];
    if factor_used(9, &a, l) {
        Ok(())
    } else {
        *l = kept;
        Err(Refusal::FitFailed)
    }
}

// Solves l y = b for the first n unknowns by forward substitution: x holds b, and then y. The other places are unchanged.
fn forward(n: usize, l: &[[f64; 9]; 9], x: &mut [f64; 9])
    requires { n ≤ 9 }
    ensures { x.new ≡ forward_to n l.now x.old }
{
    for i in 0..n {
        let mut s = x[i];
        for k in 0..i {
            s = s - l[i][k] * x[k];
        }
        x[i] = s / l[i][i];
    }
}

// Solves lᵀ x = y by back substitution, from the last row up: x holds y, and then the solution. The unknowns from n on are unused: they stay 0 and add nothing.
fn back(n: usize, l: &[[f64; 9]; 9], x: &mut [f64; 9])
    requires { (n ≤ 9) × Unused n l.now × UnusedPlaces n x.old × T (fits binary64 (at x.old (n - 1))) }
    ensures { x.new ≡ back_to 9 l.now x.old }
{
    for m in 0..n {
        let i = n - 1 - m;
        let mut s = x[i];
        for k in 0..m {
            s = s - l[i + 1 + k][i] * x[i + 1 + k];
        }
        x[i] = s / l[i][i];
    }
}

// Solves l lᵀ x = b in place: x holds b, and then the solution.
pub fn solve_into(l: &[[f64; 9]; 9], x: &mut [f64; 9])
    ensures { x.new ≡ solution_of l.now x.old }
{
    forward(9, l, x);
    back(9, l, x);
}

// Returns the solution x of l lᵀ x = b.
pub fn solve_lent(l: &[[f64; 9]; 9], b: [f64; 9]) -> [f64; 9]
    ensures { result ≡ solution_of l.now b }
{
    let mut x = b;
    solve_into(l, &mut x);
    x
}

// Returns the solution where the unknowns from n on are unused. If the last place of the forward solution is finite, so are those above it, and the unused
// places are 0; otherwise they may be NaN, since 0 times infinity is.
pub fn solve_used(n: usize, l: &[[f64; 9]; 9], b: [f64; 9]) -> [f64; 9]
    requires { (0 < n) × (n ≤ 9) × Unused n l.now × UnusedPlaces n b }
    ensures { result ≡ solution_of l.now b }
{
    let mut x = b;
    forward(n, l, &mut x);
    let last = n - 1;
    let z = x[last];
    if is_finite(z) {
        back(n, l, &mut x);
        x
    } else {
        solve_lent(l, b)
    }
}

// Returns the solution x of l lᵀ x = b. Only the lower triangle of l is read, and nothing is refused.
pub fn solve(l: [[f64; 9]; 9], b: [f64; 9]) -> [f64; 9]
    ensures { result ≡ solution_of l b }
{
    solve_lent(&l, b)
}
