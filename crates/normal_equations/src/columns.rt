// The rows of a round by columns.
ghost use Rattle.std.specs.Prelude.{◌≤◌, length};

use crate::row::Row;
use numeric::vec3::Vec3;

// The coordinates of the lines of sight and the rows' other numbers, place by place: as many rows as there are residuals.
#[derive(Clone, Copy)]
pub struct Columns<'a> {
    pub x: &'a [f64; 64],
    pub y: &'a [f64; 64],
    pub z: &'a [f64; 64],
    pub clock: &'a [usize; 64],
    pub sigma: &'a [f64; 64],
    pub residual: &'a [u64],
    pub ghost few: { length residual.now ≤ 64 },
}

impl<'a> Columns<'a> {
    ghost use Rattle.std.specs.Prelude.{◌≡◌, ◌<◌};
    ghost use Rattle.normal_equations.specs.Steps.{lent_columns, row_in};

    // Returns row k.
    pub fn row_at(self, k: usize) -> Row
        requires { k < length self.residual.now }
        ensures { result ≡ row_in (lent_columns self.entry) k }
    {
        Row {
            unit: Vec3 {
                x: self.x[k],
                y: self.y[k],
                z: self.z[k],
            },
            clock: self.clock[k],
            residual: self.residual[k],
            sigma: self.sigma[k],
        }
    }
}

// Room for the columns of 64 rows.
#[derive(Clone, Copy)]
pub struct Table {
    pub x: [f64; 64],
    pub y: [f64; 64],
    pub z: [f64; 64],
    pub clock: [usize; 64],
    pub sigma: [f64; 64],
    pub residual: [u64; 64],
}

impl Table {
    ghost use Rattle.std.specs.Prelude.{◌≡◌};
    ghost use Rattle.normal_equations.specs.Steps.{lent_columns, first_columns};

    // No row yet.
    pub const EMPTY: Table = Table {
        x: [0.0; 64],
        y: [0.0; 64],
        z: [0.0; 64],
        clock: [0; 64],
        sigma: [0.0; 64],
        residual: [0; 64],
    };

    // Returns the columns of the first n rows.
    pub fn first(&self, n: usize) -> Columns<'_>
        requires { n ≤ 64 }
        ensures { lent_columns result ≡ first_columns n self.now }
    {
        Columns {
            x: &self.x,
            y: &self.y,
            z: &self.z,
            clock: &self.clock,
            sigma: &self.sigma,
            residual: &self.residual[..n],
        }
    }
}
