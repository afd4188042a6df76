// The displacement between two epochs: its types, the way that every call takes, and the calls by value.
ghost use Rattle.std.specs.Prelude.{◌≡◌};
ghost use Rattle.records.specs.Lent.{lent_signals};
ghost use Rattle.tdcp.specs.Displacement as spec;
ghost use Rattle.tdcp.specs.Rated as rated;

use crate::moved::moved_by;
use crate::valid::seconds_of;
use numeric::refusal::Refusal;
use numeric::vec3::Vec3;
use records::arrays::CarrierArrays;
use records::carriers::Carriers;
use records::pair::{Profile, pairs_in};
use records::record::Epoch;
use time::time::GpsTime;

// Weighting, screening and robustness; `agreement` is neither read nor checked.
#[derive(Clone, Copy)]
pub struct Settings {
    pub screen: f64,
    pub sigma_a: f64,
    pub sigma_b: f64,
    pub huber: f64,
    pub mask: f64,
    pub rounds: u32,
    pub agreement: f64,
}

// How far the receiver moved, and how many pairs were used and screened out.
#[derive(Clone, Copy)]
pub struct Delta {
    pub delta: Vec3,
    pub used: usize,
    pub screened: usize,
}

// The interval between two epochs: its seconds, or the previous time and the current one.
#[derive(Clone, Copy)]
pub enum Interval {
    Seconds(f64),
    Between(GpsTime, GpsTime),
}

// A displacement with the quality of its fit: chi, the root of the reduced chi-squared, and pdop, the dilution of precision.
#[derive(Clone, Copy)]
pub struct RatedDelta {
    pub moved: Delta,
    pub chi: f64,
    pub pdop: f64,
}

// Returns the receiver's position change between two epochs of signals, states and floats, with the figures of its fit on request. Every displacement ends here.
// The receiver's position sets the geometry only.
pub fn displaced(
    previous: Carriers,
    current: Carriers,
    since: Interval,
    receiver: Vec3,
    settings: Settings,
    profile: Profile,
    wanted: bool,
) -> Result<RatedDelta, Refusal>
    ensures { rated.Answered wanted (spec.input (lent_signals previous.entry) (lent_signals current.entry) since receiver settings profile) result }
{
    let sound = previous.is_sound() & current.is_sound() & receiver.is_in_range();
    let dt = seconds_of(settings, sound, since)?;
    let all = pairs_in(previous, current, receiver, settings.mask, dt, profile);
    moved_by(settings, all, profile, wanted)
}

// Returns the receiver's position change between two epochs by value, with the figures of its fit on request: each is written as signals, states and floats once.
pub fn displaced_by(
    previous: Epoch,
    current: Epoch,
    since: Interval,
    receiver: Vec3,
    settings: Settings,
    profile: Profile,
    wanted: bool,
) -> Result<RatedDelta, Refusal>
    ensures { rated.Answered wanted (spec.input previous current since receiver settings profile) result }
{
    let m = previous.count;
    let n = current.count;
    if 64 < m {
        return Err(Refusal::TooMany);
    }
    if 64 < n {
        return Err(Refusal::TooMany);
    }
    let mut then = CarrierArrays::new();
    then.put_epoch(previous);
    let mut now = CarrierArrays::new();
    now.put_epoch(current);
    displaced(
        then.first(m),
        now.first(n),
        since,
        receiver,
        settings,
        profile,
        wanted,
    )
}

// Returns the receiver's position change between two epochs, dt seconds apart.
pub fn delta_position(
    previous: Epoch,
    current: Epoch,
    dt: f64,
    receiver: Vec3,
    settings: Settings,
) -> Result<Delta, Refusal>
    ensures { spec.Promised (spec.general previous current dt receiver settings) result }
{
    displaced_by(
        previous,
        current,
        Interval::Seconds(dt),
        receiver,
        settings,
        Profile::General,
        false,
    )
    .map(|d| d.moved)
}

// Returns the receiver's position change between two epochs by their times.
pub fn delta_between(
    previous: Epoch,
    current: Epoch,
    previous_time: GpsTime,
    current_time: GpsTime,
    receiver: Vec3,
    settings: Settings,
) -> Result<Delta, Refusal>
    ensures { spec.Promised (spec.input previous current (Interval.Between previous_time current_time) receiver settings Profile.General) result }
{
    displaced_by(
        previous,
        current,
        Interval::Between(previous_time, current_time),
        receiver,
        settings,
        Profile::General,
        false,
    )
    .map(|d| d.moved)
}

// Returns the receiver's position change between two epochs, dt seconds apart, by the carriers that the city profile certifies: GPS (1) and Galileo (6) on one band.
pub fn city_displacement(
    previous: Epoch,
    current: Epoch,
    dt: f64,
    band: u32,
    receiver: Vec3,
    settings: Settings,
) -> Result<Delta, Refusal>
    ensures { spec.Promised (spec.input previous current (Interval.Seconds dt) receiver settings (Profile.City band)) result }
{
    displaced_by(
        previous,
        current,
        Interval::Seconds(dt),
        receiver,
        settings,
        Profile::City(band),
        false,
    )
    .map(|d| d.moved)
}

// Returns the receiver's position change between two epochs, dt seconds apart, with the quality of its fit.
pub fn rated_displacement(
    previous: Epoch,
    current: Epoch,
    dt: f64,
    receiver: Vec3,
    settings: Settings,
) -> Result<RatedDelta, Refusal>
    ensures { rated.RatedPromised (spec.general previous current dt receiver settings) result }
{
    displaced_by(
        previous,
        current,
        Interval::Seconds(dt),
        receiver,
        settings,
        Profile::General,
        true,
    )
}

// Returns the rated displacement by the carriers that the city profile certifies: GPS (1) and Galileo (6) on one band.
pub fn rated_city_displacement(
    previous: Epoch,
    current: Epoch,
    dt: f64,
    band: u32,
    receiver: Vec3,
    settings: Settings,
) -> Result<RatedDelta, Refusal>
    ensures { rated.RatedPromised (spec.input previous current (Interval.Seconds dt) receiver settings (Profile.City band)) result }
{
    displaced_by(
        previous,
        current,
        Interval::Seconds(dt),
        receiver,
        settings,
        Profile::City(band),
        true,
    )
}
