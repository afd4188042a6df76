// The weight of a row.
ghost use Rattle.std.specs.Prelude.{◌≡◌};
ghost use Rattle.normal_equations.specs.Weight as spec;

use crate::row::Row;
use median::centre::CentreScale;
use numeric::order::float;
use numeric::real::{abs, max};

// Returns Huber's factor: 1 up to the threshold, and less beyond it.
pub fn damping(huber: f64, z: f64) -> f64
    ensures { result ≡ spec.damping huber z }
{
    if z <= huber {
        1.0
    } else {
        huber / max(z, 1e-9)
    }
}

// Returns the damping of the residual's distance from the centre, divided by sigma squared.
pub fn weight(c: CentreScale, huber: f64, r: Row) -> f64
    ensures { result ≡ spec.weight c huber r }
{
    damping(huber, abs((float(r.residual) - c.centre) / c.scale)) / (r.sigma * r.sigma)
}
