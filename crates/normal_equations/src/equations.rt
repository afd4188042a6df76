// The normal equations of a round's rows.
ghost use Rattle.std.specs.Prelude.{◌≡◌, true, ◌≤◌, ◌<◌, length};
ghost use Rattle.normal_equations.specs.Nine.{Square};
ghost use Rattle.normal_equations.specs.Weight as spec;
ghost use Rattle.normal_equations.specs.Steps as code;
ghost use Rattle.normal_equations.specs.Steps.{lent_rows};

use crate::columns::Columns;
use crate::row::wide;
use crate::weight::weight;
use median::centre::CentreScale;
use numeric::order::float;
use numeric::real::is_finite;
use numeric::vec3::Vec3;

// Writes to a the matrix of n unknowns before any row is added: 1 on the diagonal of the unused ones.
pub fn unused(n: usize, a: &mut [[f64; 9]; 9])
    ensures { a.new ≡ code.unused n }
{
    *a = [[0.0; 9]; 9];
    for i in n..9 {
        a[i][i] = 1.0;
    }
}

// Returns a row nine wide times its weight.
fn times(w: f64, e: &[f64; 9]) -> [f64; 9]
    ensures { result ≡ code.times w e.now }
{
    let mut t = [0.0; 9];
    for i in 0..9 {
        t[i] = w * e[i];
    }
    t
}

// Adds t_i · d to each of the first n places of b.
fn add_side(n: usize, t: &[f64; 9], d: f64, b: &mut [f64; 9])
    requires { (n ≤ 9) × (length b.old ≡ 9) }
    ensures { b.new ≡ code.side_added n t.now d b.old }
{
    for i in 0..n {
        b[i] = b[i] + t[i] * d;
    }
}

// Adds t · e_j to each of the first m cells of row i.
fn add_row(i: usize, m: usize, t: f64, e: &[f64; 9], a: &mut [[f64; 9]; 9])
    requires { (i < 9) × (m ≤ 9) × Square a.old }
    ensures { a.new ≡ code.row_added i m t e.now a.old }
{
    for j in 0..m {
        a[i][j] = a[i][j] + t * e[j];
    }
}

// Adds t_i · e_j to each cell of the lower triangle of n unknowns.
pub fn add_triangle(n: usize, t: &[f64; 9], e: &[f64; 9], a: &mut [[f64; 9]; 9])
    requires { (n ≤ 9) × Square a.old }
    ensures { a.new ≡ code.triangle_added n t.now e.now a.old }
{
    for i in 0..n {
        add_row(i, i + 1, t[i], e, a);
    }
}

// Forms the normal equations in a and b, the matrix by its lower triangle, over every place of every row.
fn form(
    rows: Columns,
    n: usize,
    c: CentreScale,
    huber: f64,
    a: &mut [[f64; 9]; 9],
    b: &mut [f64; 9],
)
    requires { n ≤ 9 }
    ensures { code.Formed (spec.weight c huber) (lent_rows rows.entry) n a.new b.new }
{
    unused(n, a);
    *b = [0.0; 9];
    let count = rows.residual.len();
    let mut e = [0.0; 9];
    for k in 0..count {
        let r = rows.row_at(k);
        let p = r.residual;
        let w = weight(c, huber, r);
        wide(r, &mut e);
        let t = times(w, &e);
        add_side(n, &t, float(p), b);
        add_triangle(n, &t, &e, a);
    }
}

// The sums over the rows of the products of two of the first three places.
#[derive(Clone, Copy)]
pub struct Corner {
    pub xx: f64,
    pub yx: f64,
    pub yy: f64,
    pub zx: f64,
    pub zy: f64,
    pub zz: f64,
}

// Returns the sums before any row is added.
pub fn no_corner() -> Corner
    ensures { result ≡ code.no_corner }
{
    Corner {
        xx: 0.0,
        yx: 0.0,
        yy: 0.0,
        zx: 0.0,
        zy: 0.0,
        zz: 0.0,
    }
}

// Adds a row to the sums, given its line of sight, and t, the line of sight times the weight.
pub fn with_row(s: Corner, t: Vec3, unit: Vec3) -> Corner
    ensures { result ≡ code.corner_added s t unit }
{
    Corner {
        xx: s.xx + t.x * unit.x,
        yx: s.yx + t.y * unit.x,
        yy: s.yy + t.y * unit.y,
        zx: s.zx + t.z * unit.x,
        zy: s.zy + t.z * unit.y,
        zz: s.zz + t.z * unit.z,
    }
}

// Adds a row's products at its clock to the clock's row of a; t is the weight there.
pub fn add_clock(i: usize, t: f64, unit: Vec3, a: &mut [[f64; 9]; 9])
    requires { i < 9 }
    ensures { a.new ≡ code.clock_added i t unit a.old }
{
    a[i][0] = a[i][0] + t * unit.x;
    a[i][1] = a[i][1] + t * unit.y;
    a[i][2] = a[i][2] + t * unit.z;
    a[i][i] = a[i][i] + t * 1.0;
}

// Writes the sums over the first three places to a.
pub fn put_corner(s: Corner, a: &mut [[f64; 9]; 9])
    ensures { a.new ≡ code.corner_put s a.old }
{
    a[0][0] = s.xx;
    a[1][0] = s.yx;
    a[1][1] = s.yy;
    a[2][0] = s.zx;
    a[2][1] = s.zy;
    a[2][2] = s.zz;
}

// Returns a line of sight times its weight.
fn weighted(w: f64, unit: Vec3) -> Vec3
    ensures { result ≡ code.vector_times w unit }
{
    Vec3 {
        x: w * unit.x,
        y: w * unit.y,
        z: w * unit.z,
    }
}

// Adds a row's products with its residual d to the sums v over the first three places.
fn with_side(v: Vec3, t: Vec3, d: f64) -> Vec3
    ensures { result ≡ code.vector_added v t d }
{
    Vec3 {
        x: v.x + t.x * d,
        y: v.y + t.y * d,
        z: v.z + t.z * d,
    }
}

// Writes the sums over the first three places to b.
fn put_side(v: Vec3, b: &mut [f64; 9])
    ensures { b.new ≡ code.corner_sides v b.old }
{
    b[0] = v.x;
    b[1] = v.y;
    b[2] = v.z;
}

// Forms the normal equations over the places of a row that are not 0: x, y, z and the clock. Zeros add nothing where every number is finite.
// Returns false, with a and b of no use, where a clock is below 3, at n or beyond, or a number is not finite.
fn form_by_places(
    rows: Columns,
    n: usize,
    c: CentreScale,
    huber: f64,
    a: &mut [[f64; 9]; 9],
    b: &mut [f64; 9],
) -> bool
    requires { n ≤ 9 }
    ensures { result ≡ true → code.Formed (spec.weight c huber) (lent_rows rows.entry) n a.new b.new }
{
    if n < 3 {
        return false;
    }
    unused(n, a);
    *b = [0.0; 9];
    let count = rows.residual.len();
    let mut s = no_corner();
    let mut v = Vec3::ZERO;
    for k in 0..count {
        let r = rows.row_at(k);
        let i = r.clock;
        if i < 3 {
            return false;
        }
        if i >= n {
            return false;
        }
        let unit = r.unit;
        let d = float(r.residual);
        let w = weight(c, huber, r);
        let t = weighted(w, unit);
        s = with_row(s, t, unit);
        v = with_side(v, t, d);
        add_clock(i, w * 1.0, unit, a);
        b[i] = b[i] + w * 1.0 * d;
    }
    put_corner(s, a);
    put_side(v, b);
    is_finite(s.xx) & is_finite(s.yy) & is_finite(s.zz) & is_finite(v.x)
}

// Forms the normal equations in a and b: over the places that are not 0, or over all where that is not enough.
pub fn normal(
    rows: Columns,
    n: usize,
    c: CentreScale,
    huber: f64,
    a: &mut [[f64; 9]; 9],
    b: &mut [f64; 9],
)
    requires { n ≤ 9 }
    ensures { code.Formed (spec.weight c huber) (lent_rows rows.entry) n a.new b.new }
{
    if form_by_places(rows, n, c, huber, a, b) {
        return;
    }
    form(rows, n, c, huber, a, b);
}
