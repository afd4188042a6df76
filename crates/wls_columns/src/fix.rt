// The fix of a caller's columns, its settings as four floats and the rounds, and its answer in lent memory. What a caller lends as doubles is taken as their patterns,
// so that a refusal is promised to leave every bit.
ghost use Rattle.std.specs.Prelude.{◌≡◌, min, map};
ghost use Rattle.numeric.specs.Order.{pattern_of};
ghost use Rattle.numeric.specs.Vec3.{vector_at};
ghost use Rattle.wls.specs.Fix.{fix_floats};
ghost use Rattle.wls_columns.specs.Fix as spec;
ghost use Rattle.wls_columns.specs.Steps.{lent_observations};

use crate::columns::LentObservations;
use estimate_rounds::rounds::rounds_of;
use numeric::order::pattern;
use numeric::refusal::{Refusal, put};
use numeric::vec3::Vec3;
use wls::fix::{Settings, Solution, solve_full};

// Returns the settings of a fix.
fn fix_settings(s: &[f64; 4], rounds: usize) -> Settings
    ensures { result ≡ spec.fix_settings s.now (min rounds 51) }
{
    let n = rounds_of(rounds);
    Settings {
        sigma_a: s[0],
        sigma_b: s[1],
        huber: s[2],
        mask: s[3],
        rounds: n,
    }
}

// Returns the fix of the first `count` observations, or the refusal.
pub fn columns_fix(
    observations: LentObservations,
    count: usize,
    guess: &[f64; 3],
    settings: &[f64; 4],
    rounds: usize,
) -> Result<Solution, Refusal>
    ensures { result ≡ spec.column_fix_of (lent_observations observations.entry) count
        (vector_at guess.now 0) (spec.fix_settings settings.now rounds) }
{
    if !observations.fit(count) {
        return Err(Refusal::TooMany);
    }
    let s = fix_settings(settings, rounds);
    solve_full(observations.observations(count), Vec3::from(*guess), s)
}

// Returns the patterns of x, y, z, chi and pdop.
fn solution_patterns(s: Solution) -> [u64; 5]
    ensures { result ≡ map pattern_of (fix_floats (Ok s)) }
{
    let p = s.position;
    let x = pattern(p.x);
    let y = pattern(p.y);
    let z = pattern(p.z);
    let chi = pattern(s.chi);
    let pdop = pattern(s.pdop);
    [x, y, z, chi, pdop]
}

// Returns 0 and writes x, y, z, chi and pdop to `solution` and the observations used to `used`. On refusal, returns its number and changes nothing.
pub fn fix_into(answer: Result<Solution, Refusal>, solution: &mut [u64; 5], used: &mut usize) -> u8
    ensures { spec.FixLeaves answer result solution.old solution.new used.old used.new }
{
    put(answer.map(|s| s.used), used);
    put(answer.map(solution_patterns), solution)
}

// Returns 0 and writes x, y and z of the fix to `position` (`solve` of wls.rs). On refusal, returns its number and changes nothing.
pub fn position_into(answer: Result<Solution, Refusal>, position: &mut [u64; 3]) -> u8
    ensures { spec.PositionLeaves answer result position.old position.new }
{
    put(answer.map(|s| s.position).map(Vec3::patterns), position)
}
