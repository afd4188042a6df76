// The records that a caller lends as columns of numbers.
ghost use Rattle.std.specs.Prelude.{◌≡◌, true, ◌+◌, ◌*◌, ◌<◌, length};
ghost use Rattle.lists.specs.Walk.{Holds};
ghost use Rattle.wls_columns.specs.Columns as spec;
ghost use Rattle.wls_columns.specs.Steps.{lent_observations, lent_row_columns};

use normal_equations::row::{Row, Rows};
use numeric::vec3::{Vec3, vector_at};
use records::record::{Observation, Observations};

// The rows of a round: three floats of the line of sight for each row, and one number in each other column.
#[derive(Clone, Copy)]
pub struct LentRows<'a> {
    pub units: &'a [f64],
    pub clocks: &'a [usize],
    pub residuals: &'a [u64],
    pub sigmas: &'a [f64],
}

impl<'a> LentRows<'a> {
    // Checks that n is at most 64 and that each column has room for n rows.
    pub(crate) fn fit(self, n: usize) -> bool
        ensures { result ≡ spec.rows_fit (lent_row_columns self.entry) n }
    {
        if n > 64 {
            return false;
        }
        (3 * n <= self.units.len())
            & (n <= self.clocks.len())
            & (n <= self.residuals.len())
            & (n <= self.sigmas.len())
    }

    // Returns row i.
    fn row_at(self, i: usize) -> Row
        requires i_in_bounds { 3 * i + 2 < length self.units.now }
        requires i_in_bounds_2 { (i < length self.clocks.now) × (i < length self.residuals.now) × (i < length self.sigmas.now) }
        ensures { result ≡ spec.row_from (lent_row_columns self.entry) i }
    {
        Row {
            unit: vector_at(self.units, 3 * i),
            clock: self.clocks[i],
            residual: self.residuals[i],
            sigma: self.sigmas[i],
        }
    }

    // Returns the first n rows.
    pub(crate) fn rows(self, n: usize) -> Rows
        requires { spec.rows_fit (lent_row_columns self) n ≡ true }
        ensures { Holds result.count result.row (spec.rows_from (lent_row_columns self.entry) n).row }
    {
        let nothing = Row {
            unit: Vec3::ZERO,
            clock: 0,
            residual: 0,
            sigma: 0.0,
        };
        let mut out = Rows {
            count: n,
            row: [nothing; 64],
        };
        for i in 0..n {
            out.row[i] = self.row_at(i);
        }
        out
    }
}

// The observations of a fix: a constellation and five floats for each.
#[derive(Clone, Copy)]
pub struct LentObservations<'a> {
    pub constellation: &'a [u8],
    pub floats: &'a [f64],
}

impl<'a> LentObservations<'a> {
    // Checks that n is at most 64 and that each column has room for n observations.
    pub(crate) fn fit(self, n: usize) -> bool
        ensures { result ≡ spec.observations_fit (lent_observations self.entry) n }
    {
        if n > 64 {
            return false;
        }
        (n <= self.constellation.len()) & (5 * n <= self.floats.len())
    }

    // Returns observation i.
    fn observation_at(self, i: usize) -> Observation
        requires { (i < length self.constellation.now) × (5 * i + 4 < length self.floats.now) }
        ensures { result ≡ spec.observation_at (lent_observations self.entry) i }
    {
        let at = 5 * i;
        Observation {
            constellation: self.constellation[i],
            band: 0,
            svid: 0,
            modelled: 0.0,
            pseudorange: self.floats[at],
            satellite: vector_at(self.floats, at + 1),
            elevation: self.floats[at + 4],
        }
    }

    // Returns the first n observations.
    pub(crate) fn observations(self, n: usize) -> Observations
        requires { spec.observations_fit (lent_observations self) n ≡ true }
        ensures { Holds result.count result.observation (spec.observations_of (lent_observations self.entry) n).observation }
    {
        let nothing = Observation {
            constellation: 0,
            band: 0,
            svid: 0,
            modelled: 0.0,
            pseudorange: 0.0,
            satellite: Vec3::ZERO,
            elevation: 0.0,
        };
        let mut out = Observations {
            count: n,
            observation: [nothing; 64],
        };
        for i in 0..n {
            out.observation[i] = self.observation_at(i);
        }
        out
    }
}
