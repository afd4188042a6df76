// The rows of a round.
ghost use Rattle.std.specs.Prelude.{◌≡◌};
ghost use Rattle.normal_equations.specs.Equations as spec;

use numeric::vec3::Vec3;

// One observation's part in a round: the line of sight, the column of its clock, the pattern of measured minus predicted, and the one-sigma.
#[derive(Clone, Copy)]
pub struct Row {
    pub unit: Vec3,
    pub clock: usize,
    pub residual: u64,
    pub sigma: f64,
}

// Holds rows; the first `count` are used.
#[derive(Clone, Copy)]
pub struct Rows {
    pub count: usize,
    pub row: [Row; 64],
}

// Writes the row nine wide to e: the line of sight, and 1 in the column of the clock.
pub fn wide(r: Row, e: &mut [f64; 9])
    ensures { e.new ≡ spec.wide r }
{
    *e = [0.0; 9];
    e[0] = r.unit.x;
    e[1] = r.unit.y;
    e[2] = r.unit.z;
    let c = r.clock;
    if c < 9 {
        e[c] = 1.0;
    }
}
