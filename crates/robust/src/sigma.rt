// The one-sigma of an elevation.
ghost use Rattle.std.specs.Prelude.{◌≡◌};
ghost use Rattle.robust.specs.Sigma.{elevation_sigma};

use numeric::real::{elevation_sine, max, radians};

// Returns a + b / sin(elevation), with the elevation in degrees, at least 3.
pub fn elevation_sigma(elevation: f64, a: f64, b: f64) -> f64
    ensures { result ≡ elevation_sigma elevation a b }
{
    a + b / max(elevation_sine(radians(max(elevation, 3.0))), 0.05)
}
