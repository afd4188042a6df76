// A trip that the caller holds as six words: pulses per kilometre, epochs, carrier millimetres, pulses, greatest difference, its epoch.
ghost use Rattle.std.specs.Prelude.{◌≡◌};
ghost use Rattle.trip.specs.Words as spec;

use crate::measure::way_of;
use crate::trip::{Report, Trip};
use numeric::refusal::Refusal;
use numeric::vec3::Vec3;

// Returns the trip that the words hold, or 16.
impl TryFrom<[u64; 6]> for Trip {
    type Error = Refusal;

    ghost try_from_gives = { λ w trip. trip ≡ spec.held_of w };

    fn try_from(w: [u64; 6]) -> Result<Trip, Refusal> {
        let rate = w[0];
        let epochs = w[1];
        if (65535 < rate) | (4294967295 < epochs) {
            return Err(Refusal::BadTrip);
        }
        Ok(Trip {
            rate: rate as u16,
            epochs: epochs as u32,
            carrier: w[2],
            pulses: w[3],
            greatest: w[4],
            reached: w[5],
        })
    }
}

// Returns the six words of a trip.
impl From<Trip> for [u64; 6] {
    ghost from_gives = { λ trip w. w ≡ spec.words_of trip };

    fn from(t: Trip) -> [u64; 6] {
        [
            t.rate as u64,
            t.epochs as u64,
            t.carrier,
            t.pulses,
            t.greatest,
            t.reached,
        ]
    }
}

// Returns the four words of a report.
impl From<Report> for [u64; 4] {
    ghost from_gives = { λ report w. w ≡ spec.report_words report };

    fn from(p: Report) -> [u64; 4] {
        [p.carrier, p.odometer, p.greatest, p.reached]
    }
}

// Adds an epoch to the trip that the lent words hold.
pub fn add_held(trip: &[u64; 6], delta: &[f64; 3], pulses: u16) -> Result<Trip, Refusal>
    ensures { result ≡ spec.added_words trip.now delta.now pulses }
{
    // The way first: it may need a root, which is a call, over which no word has to be kept.
    let way = way_of(Vec3::from(*delta));
    Trip::try_from(*trip)?.add_way(way, pulses)
}

// Reports the trip that the words hold.
pub fn report_held(w: [u64; 6]) -> Result<Report, Refusal>
    ensures { result ≡ spec.reported_words w }
{
    Trip::try_from(w)?.report()
}

// Returns its fuel for a kilometre.
pub fn fuel_held(w: [u64; 6], millilitres: u32) -> Result<u64, Refusal>
    ensures { result ≡ spec.fuelled_words w millilitres }
{
    Trip::try_from(w)?.fuel(millilitres)
}
