// Entry points of a trip whose displacements are worked out under settings that may change between two epochs. The caller holds the trip as six words, and the settings in force as
// five floats (screen, sigma_a, sigma_b, huber, mask) and the rounds.
ghost use Rattle.std.specs.Prelude.{◌≡◌};
ghost use Rattle.lists.specs.Memory.{lent as lent_memory};
ghost use Rattle.records.specs.Lent.{lent_columns, lent_vector};
ghost use Rattle.trip.specs.Words.{held_of};
ghost use Rattle.trip_settings.specs.Drive.{begun_of, under_new, tested};
ghost use Rattle.tdcp_columns.specs.Displacement.{displacement_settings, lent, lent_settings};
ghost use Rattle.trip_settings.specs.Lent.{SettingsPut, TripBegun, TravelAnswers};

use records::columns::EpochColumns;
use records::pair::Profile;
use tdcp::displacement::Interval;
use tdcp_columns::displacement::columns_displaced;
use trip_settings::lent::{begun, changed, put_begun, put_settings, travel_into};

// Starts a trip in the lent words, puts its settings in force in the lent patterns and rounds, and returns 0. On refusal, returns 3 or 16 and changes nothing.
#[unsafe(no_mangle)]
pub extern "C" fn zaqnuti_trip_begin(
    settings: &[f64; 5],
    rounds: usize,
    per_km: u16,
    trip: &mut [u64; 6],
    in_force: &mut [u64; 5],
    in_force_rounds: &mut usize,
) -> u8
    ensures { TripBegun (begun_of (displacement_settings settings.now rounds) per_km) result (lent_memory trip) (lent_memory in_force) (lent_memory in_force_rounds) }
{
    put_begun(
        begun(settings, rounds, per_km),
        trip,
        in_force,
        in_force_rounds,
    )
}

// Puts new settings in force in the lent patterns and rounds and returns 0. On refusal, returns 3 or 16 and changes nothing.
#[unsafe(no_mangle)]
pub extern "C" fn zaqnuti_trip_settings(
    trip: &[u64; 6],
    settings: &[f64; 5],
    rounds: usize,
    in_force: &mut [u64; 5],
    in_force_rounds: &mut usize,
) -> u8
    ensures { SettingsPut (under_new (displacement_settings settings.now rounds) (tested (held_of trip.now))) result (lent_memory in_force) (lent_memory in_force_rounds) }
{
    put_settings(changed(trip, settings, rounds), in_force, in_force_rounds)
}

// Works a displacement out under the settings in force, adds it with its pulses to the trip in the lent words, writes it in metres to `delta` and how many pairs were
// used and screened out to `counts`, and returns 0. On refusal, returns its number and changes nothing.
#[unsafe(no_mangle)]
pub extern "C" fn zaqnuti_trip_displacement(
    trip: &mut [u64; 6],
    in_force: &[f64; 5],
    in_force_rounds: usize,
    previous_constellation: &[u8],
    previous_svid: &[u16],
    previous_band: &[u32],
    previous_state: &[i32],
    previous_floats: &[f64],
    previous_count: usize,
    current_constellation: &[u8],
    current_svid: &[u16],
    current_band: &[u32],
    current_state: &[i32],
    current_floats: &[f64],
    current_count: usize,
    dt: f64,
    receiver: &[f64; 3],
    pulses: u16,
    delta: &mut [u64; 3],
    counts: &mut [usize; 2],
) -> u8
    ensures { TravelAnswers (lent
        (lent_columns previous_constellation previous_svid previous_band previous_state previous_floats) previous_count
        (lent_columns current_constellation current_svid current_band current_state current_floats) current_count
        (Interval.Seconds dt) (lent_vector receiver) (lent_settings in_force in_force_rounds) Profile.General) pulses
        result trip.old trip.new delta.old delta.new counts.old counts.new }
{
    let previous = EpochColumns {
        constellation: previous_constellation,
        svid: previous_svid,
        band: previous_band,
        state: previous_state,
        floats: previous_floats,
        count: previous_count,
    };
    let current = EpochColumns {
        constellation: current_constellation,
        svid: current_svid,
        band: current_band,
        state: current_state,
        floats: current_floats,
        count: current_count,
    };
    let moved = columns_displaced(
        previous,
        current,
        Interval::Seconds(dt),
        receiver,
        in_force,
        in_force_rounds,
        Profile::General,
        false,
    )
    .map(|d| d.moved);
    travel_into(trip, moved, pulses, delta, counts)
}
