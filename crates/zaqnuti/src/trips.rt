// Entry points of a trip, which the caller holds as six words: pulses per kilometre, epochs, carrier millimetres, pulses, greatest difference, its epoch.
ghost use Rattle.lists.specs.Memory.{lent};
ghost use Rattle.trip.specs.Trip.{started};
ghost use Rattle.trip.specs.Words.{added_words, reported_words, fuelled_words, TripAnswers, ReportAnswers, FuelAnswers};

use numeric::refusal::put;
use trip::trip::Trip;
use trip::words::{add_held, fuel_held, report_held};

// Starts a trip in the lent words and returns 0. On refusal, returns 16 and changes nothing.
#[unsafe(no_mangle)]
pub extern "C" fn zaqnuti_trip_start(per_km: u16, trip: &mut [u64; 6]) -> u8
    ensures { TripAnswers (started per_km) result (lent trip) }
{
    put(Trip::start(per_km).map(Into::into), trip)
}

// Adds an epoch to the trip in the lent words and returns 0. On refusal, returns 16 and changes nothing.
#[unsafe(no_mangle)]
pub extern "C" fn zaqnuti_trip_add(trip: &mut [u64; 6], delta: &[f64; 3], pulses: u16) -> u8
    ensures { TripAnswers (added_words trip.old delta.now pulses) result (lent trip) }
{
    put(add_held(trip, delta, pulses).map(Into::into), trip)
}

// Writes carrier millimetres, odometer millimetres, the greatest difference and its epoch to `report` and returns 0. On refusal, returns 16 and changes nothing.
#[unsafe(no_mangle)]
pub extern "C" fn zaqnuti_trip_report(trip: &[u64; 6], report: &mut [u64; 4]) -> u8
    ensures { ReportAnswers (reported_words trip.now) result (lent report) }
{
    put(report_held(*trip).map(Into::into), report)
}

// Writes the millilitres for a kilometre to the lent number and returns 0. On refusal, returns 16 or 17 and changes nothing.
#[unsafe(no_mangle)]
pub extern "C" fn zaqnuti_trip_fuel(trip: &[u64; 6], millilitres: u32, per_km: &mut u64) -> u8
    ensures { FuelAnswers (fuelled_words trip.now millilitres) result (lent per_km) }
{
    put(fuel_held(*trip, millilitres), per_km)
}
