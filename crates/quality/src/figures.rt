// Chi and pdop of a fit's rows.
ghost use Rattle.std.specs.Prelude.{◌≡◌, true, List, Float, ℕ, ◌≤◌, length};
ghost use Rattle.normal_equations.specs.Steps.{columns, lent_rows, rows_in};
ghost use Rattle.quality.specs.Quality as spec;
ghost use Rattle.quality.specs.Steps.{Diluted, Qualified};

use crate::inverse::pdop_of;
use cholesky::factor::factor_used;
use normal_equations::columns::Columns;
use normal_equations::equations::{
    add_clock, add_triangle, no_corner, put_corner, unused, with_row,
};
use normal_equations::row::wide;
use numeric::order::float;
use numeric::real::{is_finite, square};
use numeric::refusal::Refusal;
use root::sqrt::sqrt;

// The root of the reduced chi-squared, and the dilution of precision.
#[derive(Clone, Copy)]
pub struct Figures {
    pub chi: f64,
    pub pdop: f64,
}

// Returns the degrees of freedom of so many rows and n unknowns, at least 1.
pub fn freedom_of(count: usize, n: usize) -> f64
    requires { count ≤ 64 }
    ensures { result ≡ spec.freedom_of count n }
{
    if n < count {
        (count - n) as u32 as f64
    } else {
        1.0
    }
}

// Returns chi of the rows with these residuals and sigmas, whatever their lines of sight.
pub fn chi_of(sigma: &[f64; 64], residual: &[u64], n: usize) -> f64
    requires { length residual.now ≤ 64 }
    ensures { (x y z : List Float) (clock : List ℕ) → result ≡ spec.chi_of n (rows_in (columns x y z clock sigma.now residual.now)) }
{
    let count = residual.len();
    let mut t = 0.0;
    for k in 0..count {
        let p = residual[k];
        let w = sigma[k];
        let e = float(p);
        t = t + square(e / w);
    }
    sqrt(t / freedom_of(count, n))
}

// Writes to a the normal equations of the rows without weights, by their lower triangle, over every place of every row.
fn unweighted_in_full(rows: Columns, n: usize, a: &mut [[f64; 9]; 9])
    requires { n ≤ 9 }
    ensures { a.new ≡ spec.unweighted_matrix n (lent_rows rows.entry) }
{
    let count = rows.residual.len();
    unused(n, a);
    let mut e = [0.0; 9];
    for k in 0..count {
        wide(rows.row_at(k), &mut e);
        add_triangle(n, &e, &e, a);
    }
}

// Writes the same over the places of a row that are not 0: x, y, z and the clock. Zeros add nothing where every number is finite.
// Returns false, with a of no use, where a clock is below 3, at n or beyond, or a number is not finite.
fn unweighted_by_places(rows: Columns, n: usize, a: &mut [[f64; 9]; 9]) -> bool
    requires { (3 ≤ n) × (n ≤ 9) }
    ensures { result ≡ true → a.new ≡ spec.unweighted_matrix n (lent_rows rows.entry) }
{
    unused(n, a);
    let count = rows.residual.len();
    let mut s = no_corner();
    for k in 0..count {
        let r = rows.row_at(k);
        let i = r.clock;
        if i < 3 {
            return false;
        }
        if i >= n {
            return false;
        }
        let unit = r.unit;
        s = with_row(s, unit, unit);
        add_clock(i, 1.0, unit, a);
    }
    put_corner(s, a);
    is_finite(s.xx) & is_finite(s.yy) & is_finite(s.zz)
}

// Writes to a the normal equations of the rows without weights, by their lower triangle: over the places that are not 0, or over all where that is not enough.
fn unweighted_matrix(rows: Columns, n: usize, a: &mut [[f64; 9]; 9])
    requires { (3 ≤ n) × (n ≤ 9) }
    ensures { a.new ≡ spec.unweighted_matrix n (lent_rows rows.entry) }
{
    if unweighted_by_places(rows, n, a) {
        return;
    }
    unweighted_in_full(rows, n, a);
}

// Returns pdop of the rows, or the refusal by 10 where a pivot of their unweighted matrix is refused.
pub fn dilution_of(rows: Columns, n: usize) -> Result<f64, Refusal>
    requires { (3 ≤ n) × (n ≤ 9) }
    ensures { Diluted n (lent_rows rows.entry) result }
{
    let mut a = [[0.0; 9]; 9];
    unweighted_matrix(rows, n, &mut a);
    let mut l = [[0.0; 9]; 9];
    if factor_used(n, &a, &mut l) {
        Ok(pdop_of(n, &l))
    } else {
        Err(Refusal::FitFailed)
    }
}

// Returns chi and pdop of the rows, or the refusal: 10 where a pivot of their unweighted matrix is refused, 14 where a figure is not finite.
pub fn quality_of(rows: Columns, n: usize) -> Result<Figures, Refusal>
    requires { (3 ≤ n) × (n ≤ 9) }
    ensures { Qualified n (lent_rows rows.entry) result }
{
    let chi = chi_of(rows.sigma, rows.residual, n);
    let pdop = dilution_of(rows, n)?;
    if is_finite(chi) & is_finite(pdop) {
        Ok(Figures { chi, pdop })
    } else {
        Err(Refusal::QualityNotFinite)
    }
}
