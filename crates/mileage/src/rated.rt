// Which displacements a mileage counts, by their quality.
ghost use Rattle.std.specs.Prelude.{◌≡◌};
ghost use Rattle.mileage.specs.Rated as spec;

// The larger of chi and 1; a NaN stays one.
pub(crate) fn at_least_one(chi: f64) -> f64
    ensures { result ≡ spec.at_least_one chi }
{
    if chi < 1.0 { 1.0 } else { chi }
}

// Returns the predicted error of a displacement in metres.
pub fn predicted_error(chi: f64, pdop: f64) -> f64
    ensures { result ≡ spec.predicted_error chi pdop }
{
    pdop * at_least_one(chi) * 0.01
}

// Checks that chi and pdop are finite and not below 0, and the predicted error is below the limit. Where chi or pdop is infinite the error is an infinity or a
// NaN, which is below no limit.
pub fn is_rated(limit: f64, chi: f64, pdop: f64) -> bool
    ensures { result ≡ spec.rated limit chi pdop }
{
    (0.0 <= chi) & (0.0 <= pdop) & (predicted_error(chi, pdop) < limit)
}
