// Chi at the returned position.
ghost use Rattle.std.specs.Prelude.{◌≡◌, ◌≤◌};
ghost use Rattle.wls.specs.declared.fix.Settings.{Settings};
ghost use Rattle.records.specs.Record.{counted_observations};
ghost use Rattle.wls.specs.Steps.{SigmasOf, ChiAnswered};

use clocks::clocks::Clocks;
use estimate_rounds::rounds::state_at;
use numeric::real::square;
use numeric::refusal::Refusal;
use numeric::sight::geometry;
use numeric::vec3::Vec3;
use quality::figures::freedom_of;
use records::record::Observations;
use root::sqrt::sqrt;

// Returns chi of the observations with these sigmas at the state s, the root of the reduced chi-squared, or refuses a line of sight by 15.
pub(crate) fn chi_at(
    k: Clocks,
    sky: Observations,
    sigma: &[f64; 64],
    s: [f64; 9],
) -> Result<f64, Refusal>
    requires { (sky.count ≤ 64) × (k.count ≤ 6) }
    ensures { (settings : Settings) → SigmasOf settings sky sigma.now → ChiAnswered settings k (counted_observations sky) s result }
{
    let count = sky.count;
    let at = Vec3 {
        x: s[0],
        y: s[1],
        z: s[2],
    };
    let mut t = 0.0;
    for j in 0..count {
        let o = sky.observation[j];
        let g = geometry(o.satellite, at)?;
        let q = k.slot(o.constellation);
        let e = o.pseudorange - (g.range + state_at(s, q));
        let w = sigma[j];
        t = t + square(e / w);
    }
    Ok(sqrt(t / freedom_of(count, 3 + k.count)))
}
