// Entry points of the root, the stand-ins and the float order.
ghost use Rattle.std.specs.Prelude.{◌≡◌};
ghost use Rattle.root.specs.Root.{root_of};
ghost use Rattle.numeric.specs.Order.{total_order, pattern_of};
ghost use Rattle.numeric.specs.Real as spec;

use numeric::order::{before, pattern};
use numeric::real::{abs, elevation_sine, hypot, max, radians, square, travel_cosine, travel_sine};
use root::sqrt::sqrt;

// The square root of x, correctly rounded.
#[unsafe(no_mangle)]
pub extern "C" fn zaqnuti_sqrt(x: f64) -> f64
    ensures { result ≡ root_of x }
{
    sqrt(x)
}

// Whether the pattern a comes before b or is b, in IEEE 754's total_order.
#[unsafe(no_mangle)]
pub extern "C" fn zaqnuti_before(a: u64, b: u64) -> bool
    ensures { result ≡ total_order a b }
{
    before(a, b)
}

// The bits of x, and of a NaN 7FF8000000000000.
#[unsafe(no_mangle)]
pub extern "C" fn zaqnuti_pattern(x: f64) -> u64
    ensures { result ≡ pattern_of x }
{
    pattern(x)
}

// `powi(2)`.
#[unsafe(no_mangle)]
pub extern "C" fn zaqnuti_square(x: f64) -> f64
    ensures { result ≡ spec.square x }
{
    square(x)
}

// The root of a * a + b * b.
#[unsafe(no_mangle)]
pub extern "C" fn zaqnuti_hypot(a: f64, b: f64) -> f64
    ensures { result ≡ spec.hypot a b }
{
    hypot(a, b)
}

// The sine of a travel angle, a NaN above 2^-10.
#[unsafe(no_mangle)]
pub extern "C" fn zaqnuti_travel_sine(t: f64) -> f64
    ensures { result ≡ spec.travel_sine t }
{
    travel_sine(t)
}

// The cosine of a travel angle, a NaN above 2^-10.
#[unsafe(no_mangle)]
pub extern "C" fn zaqnuti_travel_cosine(t: f64) -> f64
    ensures { result ≡ spec.travel_cosine t }
{
    travel_cosine(t)
}

// Degrees as radians.
#[unsafe(no_mangle)]
pub extern "C" fn zaqnuti_radians(x: f64) -> f64
    ensures { result ≡ spec.radians x }
{
    radians(x)
}

// The sine of an elevation in radians.
#[unsafe(no_mangle)]
pub extern "C" fn zaqnuti_elevation_sine(t: f64) -> f64
    ensures { result ≡ spec.elevation_sine t }
{
    elevation_sine(t)
}

// x with its sign bit clear.
#[unsafe(no_mangle)]
pub extern "C" fn zaqnuti_abs(x: f64) -> f64
    ensures { result ≡ spec.abs x }
{
    abs(x)
}

// The larger of a and b; one NaN gives the other operand.
#[unsafe(no_mangle)]
pub extern "C" fn zaqnuti_max(a: f64, b: f64) -> f64
    ensures { result ≡ spec.max a b }
{
    max(a, b)
}
