// The stand-ins for Rust's float functions.
ghost use Rattle.std.specs.Prelude.{◌≡◌};
ghost use Rattle.std.specs.Float.Ieee.Scale.{finite};
ghost use Rattle.numeric.specs.Real as spec;

use root::sqrt::sqrt;

// `powi(2)`.
pub fn square(x: f64) -> f64
    ensures { result ≡ spec.square x }
{
    x * x
}

// The root of a * a + b * b.
pub fn hypot(a: f64, b: f64) -> f64
    ensures { result ≡ spec.hypot a b }
{
    sqrt(a * a + b * b)
}

// The sine of a travel angle.
pub fn travel_sine(t: f64) -> f64
    ensures { result ≡ spec.travel_sine t }
{
    if t <= 0.0009765625 {
        t - t * t * t / 6.0
    } else {
        0.0 / 0.0
    }
}

// The cosine of a travel angle.
pub fn travel_cosine(t: f64) -> f64
    ensures { result ≡ spec.travel_cosine t }
{
    if t <= 0.0009765625 {
        1.0 - t * t / 2.0
    } else {
        0.0 / 0.0
    }
}

// `to_radians`.
pub fn radians(x: f64) -> f64
    ensures { result ≡ spec.radians x }
{
    x * (3.141592653589793 / 180.0)
}

// The sine of an elevation in radians.
pub fn elevation_sine(t: f64) -> f64
    ensures { result ≡ spec.elevation_sine t }
{
    let z = t * t;
    let mut s = -1.0 / 1307674368000.0;
    s = s * z + 1.0 / 6227020800.0;
    s = s * z + -1.0 / 39916800.0;
    s = s * z + 1.0 / 362880.0;
    s = s * z + -1.0 / 5040.0;
    s = s * z + 1.0 / 120.0;
    s = s * z + -1.0 / 6.0;
    t + t * (z * s)
}

// x with its sign bit clear. Both zeros are at most 0.0, and 0.0 less either is +0.
pub fn abs(x: f64) -> f64
    ensures { result ≡ spec.abs x }
{
    if x <= 0.0 { 0.0 - x } else { x }
}

// The larger of a and b. No comparison with a NaN holds, so only a's own NaN has to be looked for.
pub fn max(a: f64, b: f64) -> f64
    ensures { result ≡ spec.max a b }
{
    if a < b {
        return b;
    }
    if a != a {
        return b;
    }
    a
}

// Whether x is neither a NaN nor an infinity.
pub fn is_finite(x: f64) -> bool
    ensures { result ≡ finite x }
{
    (-1.0 / 0.0 < x) & (x < 1.0 / 0.0)
}

// Whether x is finite and at most 1e9 in magnitude.
pub fn in_range(x: f64) -> bool
    ensures { result ≡ spec.in_range x }
{
    (-1e9 <= x) & (x <= 1e9)
}
