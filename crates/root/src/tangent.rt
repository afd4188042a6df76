// Roots by the tangent of one nearby, which can be made before the number itself is known.
ghost use Rattle.std.specs.Prelude.{◌≡◌, ◌<◌, from_bits};
ghost use Rattle.std.specs.Float.{binary64};
ghost use Rattle.root.specs.Root.{root_of};
ghost use Rattle.root.specs.Steps.{touch};

use crate::sqrt::{is_root, sqrt};
use root_table::wide_place_of;

// A guess of the roots of the floats x next to `at`, by the tangent there: high + (low + (x - at) * slope). high is a root's first digits, low is
// small beside it, and slope is near 1 / (2 * √at). Nothing is proved of how near a guess is: `is_root` tests it.
#[derive(Clone, Copy)]
pub struct Tangent {
    pub at: f64,
    pub high: f64,
    pub low: f64,
    pub slope: f64,
}

// A tangent whose guess is 0, which `is_root` never takes.
pub fn no_tangent() -> Tangent
    ensures { result.at ≡ from_bits binary64 0 }
{
    Tangent {
        at: 0.0,
        high: 0.0,
        low: 0.0,
        slope: 0.0,
    }
}

// The tangent at the positive float whose bits are b, as in `from_table`, by wider ranges, for |u| up to 2 ^ -8, and one more part of the sum.
fn from_wide_table(b: u64) -> Tangent
    requires { b < 0x7ff0_0000_0000_0000 }
    ensures { result.at ≡ from_bits binary64 b }
{
    let f = b % 0x0020_0000_0000_0000;
    let e = b / 0x0020_0000_0000_0000;
    let p = wide_place_of(f / 0x0000_4000_0000_0000);
    let u = (f64::from_bits(f + 0x3fe0_0000_0000_0000) - p.square) * p.half;
    let uu = u * u;
    let high = p.root * f64::from_bits((e + 512) * 0x0010_0000_0000_0000);
    let inverse = f64::from_bits((1534 - e) * 0x0010_0000_0000_0000);
    let more = 0.49999999985939 - 0.62499999945 * u + uu * (0.8750365 - 1.31258 * u);
    let at = f64::from_bits(b);
    Tangent {
        at: at,
        high: high,
        low: high * u * (1.0 - 0.500000000000001 * u + uu * more),
        slope: p.root * p.half * inverse * (1.0 - u + 1.5 * uu),
    }
}

// The tangent at x, where x is a positive normal number.
pub fn tangent_at(x: f64) -> Tangent
    ensures { result.at ≡ touch x }
{
    if x >= 2.2250738585072014e-308 {
        if x >= 1.0 / 0.0 {
            return no_tangent();
        }
        return from_wide_table(f64::to_bits(x));
    }
    no_tangent()
}

// The square root of x, correctly rounded, quicker where g is the tangent at a float within 2 ^ -40 of x.
pub fn sqrt_near(x: f64, g: Tangent) -> f64
    ensures { result ≡ root_of x }
{
    let s = g.high + (g.low + (x - g.at) * g.slope);
    if is_root(x, s) {
        return s;
    }
    sqrt(x)
}
