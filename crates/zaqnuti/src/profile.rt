// The entry point of the city displacement.
ghost use Rattle.std.specs.Prelude.{◌≡◌};
ghost use Rattle.lists.specs.Memory.{lent as lent_memory};
ghost use Rattle.records.specs.Lent.{lent_columns, lent_vector};
ghost use Rattle.tdcp_columns.specs.Displacement.{lent, lent_settings, DisplacementAnswers};

use records::columns::EpochColumns;
use records::pair::Profile;
use tdcp::displacement::Interval;
use tdcp_columns::displacement::columns_displaced;
use tdcp_columns::lent::answer_into;

// The displacement between two epochs by GPS (1) and Galileo (6) on the chosen band.
// Returns 0 and writes the displacement in metres to delta and how many pairs were used and screened out to counts. On refusal, returns its number and changes nothing.
#[unsafe(no_mangle)]
pub extern "C" fn zaqnuti_city_displacement(
    previous_constellation: &[u8],
    previous_svid: &[u16],
    previous_band: &[u32],
    previous_state: &[i32],
    previous_floats: &[f64],
    previous_count: usize,
    current_constellation: &[u8],
    current_svid: &[u16],
    current_band: &[u32],
    current_state: &[i32],
    current_floats: &[f64],
    current_count: usize,
    dt: f64,
    band: u32,
    receiver: &[f64; 3],
    settings: &[f64; 5],
    rounds: usize,
    delta: &mut [u64; 3],
    counts: &mut [usize; 2],
) -> u8
    ensures { DisplacementAnswers (lent
        (lent_columns previous_constellation previous_svid previous_band previous_state previous_floats) previous_count
        (lent_columns current_constellation current_svid current_band current_state current_floats) current_count
        (Interval.Seconds dt) (lent_vector receiver) (lent_settings settings rounds) (Profile.City band)) result (lent_memory delta) (lent_memory counts) }
{
    let previous = EpochColumns {
        constellation: previous_constellation,
        svid: previous_svid,
        band: previous_band,
        state: previous_state,
        floats: previous_floats,
        count: previous_count,
    };
    let current = EpochColumns {
        constellation: current_constellation,
        svid: current_svid,
        band: current_band,
        state: current_state,
        floats: current_floats,
        count: current_count,
    };
    let answer = columns_displaced(
        previous,
        current,
        Interval::Seconds(dt),
        receiver,
        settings,
        rounds,
        Profile::City(band),
        false,
    );
    answer_into(answer, delta, counts)
}
