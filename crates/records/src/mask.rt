// The observations at or above the mask, and their clocks.
ghost use Rattle.std.specs.Prelude.{◌≡◌, ◌≤◌};
ghost use Rattle.lists.specs.Walk.{Holds};
ghost use Rattle.clocks.specs.Clocks.{clocks_of};
ghost use Rattle.records.specs.Record.{counted_observations};
ghost use Rattle.records.specs.Mask as spec;

use crate::record::Observations;
use clocks::clocks::Clocks;

// The observations at or above the mask, in their order.
pub fn above_mask(o: Observations, mask: f64) -> Observations
    requires { o.count ≤ 64 }
    ensures { Holds result.count result.observation (spec.above_mask mask (counted_observations o)) }
{
    let mut out = o;
    out.count = 0;
    for i in 0..o.count {
        let x = o.observation[i];
        if mask <= x.elevation {
            let k = out.count;
            out.observation[k] = x;
            out.count = k + 1;
        }
    }
    out
}

// The clocks of the observations' constellations.
pub fn clocks_of(o: Observations) -> Clocks
    requires { o.count ≤ 64 }
    ensures { result ≡ clocks_of (spec.constellations (counted_observations o)) }
{
    let mut k = Clocks::new();
    let n = o.count;
    for i in 0..n {
        let x = o.observation[i];
        k = k.given(x.constellation);
    }
    k
}
