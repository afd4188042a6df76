// The calls of a trip with settings on lent memory: the trip as six words, the settings as five floats and the rounds.
ghost use Rattle.std.specs.Prelude.{◌≡◌, map};
ghost use Rattle.lists.specs.Memory.{lent};
ghost use Rattle.numeric.specs.Order.{pattern_of};
ghost use Rattle.tdcp_columns.specs.Displacement.{displacement_settings};
ghost use Rattle.trip.specs.Words.{held_of};
ghost use Rattle.trip_settings.specs.Drive.{begun_of, under_new, tested};
ghost use Rattle.trip_settings.specs.Lent as spec;

use crate::drive::{Drive, tested, travel_by, under_new};
use numeric::order::pattern;
use numeric::refusal::Refusal;
use tdcp::displacement::{Delta, Settings};
use tdcp_columns::settings::displacement_settings;
use trip::trip::Trip;

// Returns the patterns of the five floats.
fn patterns_of(s: Settings) -> [u64; 5]
    ensures { result ≡ map pattern_of (spec.settings_floats s) }
{
    let a = pattern(s.screen);
    let b = pattern(s.sigma_a);
    let c = pattern(s.sigma_b);
    let d = pattern(s.huber);
    let e = pattern(s.mask);
    [a, b, c, d, e]
}

// Starts a trip with these settings.
pub fn begun(settings: &[f64; 5], rounds: usize, per_km: u16) -> Result<Drive, Refusal>
    ensures { result ≡ begun_of (displacement_settings settings.now rounds) per_km }
{
    Drive::begin(displacement_settings(settings, rounds), per_km)
}

// Changes the settings of the trip that the lent words hold.
pub fn changed(trip: &[u64; 6], settings: &[f64; 5], rounds: usize) -> Result<Drive, Refusal>
    ensures { result ≡ under_new (displacement_settings settings.now rounds) (tested (held_of trip.now)) }
{
    let held = Trip::try_from(*trip);
    under_new(displacement_settings(settings, rounds), tested(held))
}

// Writes the trip that began to the lent words and its settings to the lent patterns and rounds, and returns 0. On refusal, returns its number and changes nothing.
pub fn put_begun(
    driving: Result<Drive, Refusal>,
    trip: &mut [u64; 6],
    in_force: &mut [u64; 5],
    in_force_rounds: &mut usize,
) -> u8
    ensures { spec.TripBegun driving result (lent trip) (lent in_force) (lent in_force_rounds) }
{
    if let Ok(v) = driving {
        *trip = v.trip.into();
    }
    put_settings(driving, in_force, in_force_rounds)
}

// Writes the settings in force to the lent patterns and rounds and returns 0. On refusal, returns its number and changes nothing.
pub fn put_settings(
    driving: Result<Drive, Refusal>,
    in_force: &mut [u64; 5],
    in_force_rounds: &mut usize,
) -> u8
    ensures { spec.SettingsPut driving result (lent in_force) (lent in_force_rounds) }
{
    match driving {
        Err(r) => r.number(),
        Ok(v) => {
            *in_force = patterns_of(v.settings);
            *in_force_rounds = v.settings.rounds as usize;
            0
        }
    }
}

// Adds the displacement `moved` with its pulses to the trip in the lent words, writes it in metres to `delta` and how many pairs were used and screened out to
// `counts`, and returns 0. On refusal, returns its number and changes nothing.
pub fn travel_into(
    trip: &mut [u64; 6],
    moved: Result<Delta, Refusal>,
    pulses: u16,
    delta: &mut [u64; 3],
    counts: &mut [usize; 2],
) -> u8
    ensures { spec.TravelLeaves (spec.travelled_by moved pulses trip.old) result
        trip.old trip.new delta.old delta.new counts.old counts.new }
{
    match travel_by(Trip::try_from(*trip), moved, pulses) {
        Err(r) => r.number(),
        Ok(v) => {
            *trip = v.trip.into();
            *delta = v.moved.delta.patterns();
            *counts = [v.moved.used, v.moved.screened];
            0
        }
    }
}
