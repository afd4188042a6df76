// A trip, and the displacement settings in force.
ghost use Rattle.std.specs.Prelude.{◌≡◌};
ghost use Rattle.tdcp.specs.Displacement.{general};
ghost use Rattle.trip.specs.Trip.{Reports, fuelled};
ghost use Rattle.trip_settings.specs.Drive as spec;

use numeric::refusal::Refusal;
use numeric::vec3::Vec3;
use records::record::Epoch;
use tdcp::displacement::{Delta, Settings, delta_position};
use tdcp::valid::settings_pass;
use trip::trip::{Report, Trip};

#[derive(Clone, Copy)]
pub struct Drive {
    pub trip: Trip,
    pub settings: Settings,
}

// The trip with a displacement, and that displacement.
#[derive(Clone, Copy)]
pub struct Travelled {
    pub trip: Trip,
    pub moved: Delta,
}

// Adds a displacement, where there is one, to the trip that was held. Its number comes before 16.
pub(crate) fn travel_by(
    held: Result<Trip, Refusal>,
    answer: Result<Delta, Refusal>,
    pulses: u16,
) -> Result<Travelled, Refusal>
    ensures { result ≡ spec.travel_by held pulses answer }
{
    let moved = answer?;
    let before = held?;
    let trip = before.add(moved.delta, pulses)?;
    Ok(Travelled { trip, moved })
}

// Checks rule 16 of the trip that was held.
pub(crate) fn tested(held: Result<Trip, Refusal>) -> Result<Trip, Refusal>
    ensures { result ≡ spec.tested held }
{
    let trip = held?;
    if !trip.is_sound() {
        return Err(Refusal::BadTrip);
    }
    Ok(trip)
}

// Returns the trip with these settings, or 3, or else the trip's 16.
pub(crate) fn under_new(settings: Settings, trip: Result<Trip, Refusal>) -> Result<Drive, Refusal>
    ensures { result ≡ spec.under_new settings trip }
{
    if !settings_pass(settings) {
        return Err(Refusal::SettingOutOfRange);
    }
    let trip = trip?;
    Ok(Drive { trip, settings })
}

impl Drive {
    // Starts a trip with these settings and so many pulses per kilometre.
    pub fn begin(settings: Settings, rate: u16) -> Result<Drive, Refusal>
        ensures { result ≡ spec.begun_of settings rate }
    {
        under_new(settings, Trip::start(rate))
    }

    // Puts new settings in force.
    pub fn change(self, settings: Settings) -> Result<Drive, Refusal>
        ensures { result ≡ spec.changed_of self settings }
    {
        under_new(settings, tested(Ok(self.trip)))
    }

    // Works the displacement between two epochs out under the settings in force and adds it to the trip with its pulses.
    pub fn travel(
        self,
        previous: Epoch,
        current: Epoch,
        dt: f64,
        receiver: Vec3,
        pulses: u16,
    ) -> Result<Travelled, Refusal>
        ensures { spec.Travels self.trip (general previous current dt receiver self.settings) pulses result }
    {
        let answer = delta_position(previous, current, dt, receiver, self.settings);
        travel_by(Ok(self.trip), answer, pulses)
    }

    // Reports both totals of the trip and how far they were apart.
    pub fn report(self) -> Result<Report, Refusal>
        ensures { Reports self.trip result }
    {
        self.trip.report()
    }

    // Returns the millilitres for a kilometre of its carrier distance.
    pub fn fuel(self, millilitres: u32) -> Result<u64, Refusal>
        ensures { result ≡ fuelled self.trip millilitres }
    {
        self.trip.fuel(millilitres)
    }
}
