// Entry points of the centre, the line of sight, the one-sigma and the round.
ghost use Rattle.numeric.specs.Refusal.{answer_number};
ghost use Rattle.numeric.specs.Order.{pattern_of};
ghost use Rattle.std.specs.Prelude.{◌≡◌, map, ◌∷◌, []};
ghost use Rattle.median.specs.Centre.{centre_scale_of, centre_floats};
ghost use Rattle.numeric.specs.Sight as sight;
ghost use Rattle.robust.specs.Sigma.{elevation_sigma};
ghost use Rattle.numeric.specs.Vec3.{vector_at};
ghost use Rattle.wls_columns.specs.Columns.{row_columns};
ghost use Rattle.wls_columns.specs.Step.{column_step_of, StepAnswers};
ghost use Rattle.zaqnuti.specs.Numbers.{centre_after, sight_after};

use median::centre::{CentreScale, centre_scale};
use numeric::order::pattern;
use numeric::refusal::put;
use numeric::sight::{Sight, geometry};
use numeric::vec3::Vec3;
use robust::sigma::elevation_sigma;
use wls_columns::columns::LentRows;
use wls_columns::round::{columns_step, step_into};

// Returns the patterns of the centre and the scale.
fn centre_patterns(c: CentreScale) -> [u64; 2]
    ensures { result ≡ map pattern_of (centre_floats (Ok c)) }
{
    let centre = pattern(c.centre);
    let scale = pattern(c.scale);
    [centre, scale]
}

// Returns 0 and writes the patterns of the centre and the scale of the residuals to `out`. Refuses more than 64: returns 2 and changes nothing.
#[unsafe(no_mangle)]
pub extern "C" fn zaqnuti_centre(residuals: &[u64], out: &mut [u64; 2]) -> u8
    ensures { let s = centre_scale_of residuals.now in (result ≡ answer_number s) × (out.new ≡ centre_after s out.old) }
{
    put(centre_scale(residuals).map(centre_patterns), out)
}

// Returns the patterns of the unit vector and the range.
fn sight_patterns(g: Sight) -> [u64; 4]
    ensures { result ≡ map pattern_of (g.x ∷ g.y ∷ g.z ∷ g.range ∷ []) }
{
    let x = pattern(g.x);
    let y = pattern(g.y);
    let z = pattern(g.z);
    let range = pattern(g.range);
    [x, y, z, range]
}

// Returns 0 and writes the unit vector from the satellite to the receiver and the range to `out`. Refuses a range that is zero or not finite: returns 15 and
// changes nothing.
#[unsafe(no_mangle)]
pub extern "C" fn zaqnuti_geometry(
    satellite: &[f64; 3],
    receiver: &[f64; 3],
    out: &mut [u64; 4],
) -> u8
    ensures { let s = sight.geometry (vector_at satellite.now 0) (vector_at receiver.now 0) in
        (result ≡ answer_number s) × (out.new ≡ sight_after s out.old) }
{
    let seen = geometry(Vec3::from(*satellite), Vec3::from(*receiver));
    put(seen.map(sight_patterns), out)
}

// Returns the one-sigma of an elevation in degrees.
#[unsafe(no_mangle)]
pub extern "C" fn zaqnuti_elevation_sigma(elevation: f64, a: f64, b: f64) -> f64
    ensures { result ≡ elevation_sigma elevation a b }
{
    elevation_sigma(elevation, a, b)
}

// Returns 0 and writes the patterns of the step of the first `rows` rows to `dx`, zeros beyond the unknowns. On refusal, returns 2, 4 or 10 and changes nothing.
#[unsafe(no_mangle)]
pub extern "C" fn zaqnuti_round(
    units: &[f64],
    clocks: &[usize],
    residuals: &[u64],
    sigmas: &[f64],
    rows: usize,
    unknowns: usize,
    huber: f64,
    dx: &mut [u64; 9],
) -> u8
    ensures { let c = row_columns units.now clocks.now residuals.now sigmas.now in
        StepAnswers (column_step_of c rows unknowns huber) result dx.old dx.new }
{
    let lent = LentRows {
        units,
        clocks,
        residuals,
        sigmas,
    };
    step_into(columns_step(lent, rows, unknowns, huber), dx)
}
