// The pairs that the screen keeps, and their clocks.
ghost use Rattle.std.specs.Prelude.{◌≡◌, ◌≤◌};
ghost use Rattle.clocks.specs.Clocks.{clocks_of};
ghost use Rattle.records.specs.Kept.{Kept};
ghost use Rattle.records.specs.Pair.{counted_pairs};
ghost use Rattle.records.specs.Screen as spec;

use crate::pair::Pairs;
use clocks::clocks::Clocks;
use median::median::median;
use numeric::order::{float, pattern};
use numeric::real::abs;

// Writes the pairs whose detector lies strictly within `screen` of the detectors' centre as columns, in their order. How many there are.
pub fn keep_into(
    p: Pairs,
    screen: f64,
    x: &mut [f64; 64],
    y: &mut [f64; 64],
    z: &mut [f64; 64],
    constellation: &mut [u8; 64],
    elevation: &mut [f64; 64],
    observed: &mut [f64; 64],
) -> usize
    requires { p.count ≤ 64 }
    ensures { Kept (spec.kept_of screen (counted_pairs p)) result
        x.new y.new z.new constellation.new elevation.new observed.new }
{
    let n = p.count;
    let mut d = [0u64; 64];
    for i in 0..n {
        let q = p.pair[i];
        d[i] = pattern(q.detector);
    }
    let c = float(median(&d[..n]));
    *x = [0.0; 64];
    *y = [0.0; 64];
    *z = [0.0; 64];
    *constellation = [0; 64];
    *elevation = [0.0; 64];
    *observed = [0.0; 64];
    let mut k: usize = 0;
    for j in 0..n {
        let q = p.pair[j];
        if abs(q.detector - c) < screen {
            x[k] = q.unit.x;
            y[k] = q.unit.y;
            z[k] = q.unit.z;
            constellation[k] = q.constellation;
            elevation[k] = q.elevation;
            observed[k] = q.observed;
            k += 1;
        }
    }
    k
}

// The clocks of these constellations.
pub fn clocks_of(constellation: &[u8]) -> Clocks
    ensures { result ≡ clocks_of constellation.now }
{
    let mut k = Clocks::new();
    for c in constellation {
        k = k.given(*c);
    }
    k
}
