// Entry points of the displacement and the fix. Doubles to be written are lent as their patterns, so that a refusal is promised to change no bit.
ghost use Rattle.std.specs.Prelude.{◌≡◌};
ghost use Rattle.lists.specs.Memory.{lent as lent_memory};
ghost use Rattle.records.specs.Lent.{lent_columns, lent_vector};
ghost use Rattle.numeric.specs.Vec3.{vector_at};
ghost use Rattle.tdcp_columns.specs.Displacement.{lent, lent_settings, DisplacementAnswers};
ghost use Rattle.wls_columns.specs.Columns.{observation_columns};
ghost use Rattle.wls_columns.specs.Fix.{fix_settings, FixAnswers, PositionAnswers};

use records::columns::EpochColumns;
use records::pair::Profile;
use tdcp::displacement::Interval;
use tdcp_columns::displacement::columns_displaced;
use tdcp_columns::lent::answer_into;
use wls_columns::columns::LentObservations;
use wls_columns::fix::{columns_fix, fix_into, position_into};

// The displacement between two epochs, dt seconds apart.
// Returns 0 and writes the displacement in metres to delta and how many pairs were used and screened out to counts. On refusal, returns its number and changes nothing.
#[unsafe(no_mangle)]
pub extern "C" fn zaqnuti_displacement(
    previous_constellation: &[u8],
    previous_svid: &[u16],
    previous_band: &[u32],
    previous_state: &[i32],
    previous_floats: &[f64],
    previous_count: usize,
    current_constellation: &[u8],
    current_svid: &[u16],
    current_band: &[u32],
    current_state: &[i32],
    current_floats: &[f64],
    current_count: usize,
    dt: f64,
    receiver: &[f64; 3],
    settings: &[f64; 5],
    rounds: usize,
    delta: &mut [u64; 3],
    counts: &mut [usize; 2],
) -> u8
    ensures { DisplacementAnswers (lent
        (lent_columns previous_constellation previous_svid previous_band previous_state previous_floats) previous_count
        (lent_columns current_constellation current_svid current_band current_state current_floats) current_count
        (Interval.Seconds dt) (lent_vector receiver) (lent_settings settings rounds) Profile.General) result (lent_memory delta) (lent_memory counts) }
{
    let previous = EpochColumns {
        constellation: previous_constellation,
        svid: previous_svid,
        band: previous_band,
        state: previous_state,
        floats: previous_floats,
        count: previous_count,
    };
    let current = EpochColumns {
        constellation: current_constellation,
        svid: current_svid,
        band: current_band,
        state: current_state,
        floats: current_floats,
        count: current_count,
    };
    let answer = columns_displaced(
        previous,
        current,
        Interval::Seconds(dt),
        receiver,
        settings,
        rounds,
        Profile::General,
        false,
    );
    answer_into(answer, delta, counts)
}

// Returns 0 and writes x, y, z, chi and pdop of the fix to `solution` and the observations used to `used`. On refusal, returns its number and changes nothing.
#[unsafe(no_mangle)]
pub extern "C" fn zaqnuti_fix(
    constellation: &[u8],
    floats: &[f64],
    count: usize,
    guess: &[f64; 3],
    settings: &[f64; 4],
    rounds: usize,
    solution: &mut [u64; 5],
    used: &mut usize,
) -> u8
    ensures { FixAnswers (observation_columns constellation.now floats.now) count
        (vector_at guess.now 0) (fix_settings settings.now rounds)
        result solution.old solution.new used.old used.new }
{
    let observations = LentObservations {
        constellation,
        floats,
    };
    let answer = columns_fix(observations, count, guess, settings, rounds);
    fix_into(answer, solution, used)
}

// Returns 0 and writes x, y and z of the fix to `position` (`solve` of wls.rs). On refusal, returns its number and changes nothing.
#[unsafe(no_mangle)]
pub extern "C" fn zaqnuti_position(
    constellation: &[u8],
    floats: &[f64],
    count: usize,
    guess: &[f64; 3],
    settings: &[f64; 4],
    rounds: usize,
    position: &mut [u64; 3],
) -> u8
    ensures { PositionAnswers (observation_columns constellation.now floats.now) count
        (vector_at guess.now 0) (fix_settings settings.now rounds)
        result position.old position.new }
{
    let observations = LentObservations {
        constellation,
        floats,
    };
    let answer = columns_fix(observations, count, guess, settings, rounds);
    position_into(answer, position)
}
