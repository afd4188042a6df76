// What is handed over: the carriers of a displacement, and the observations of a fix.
ghost use Rattle.std.specs.Prelude.{◌≡◌};
ghost use Rattle.records.specs.Record as spec;

use numeric::real::{in_range, is_finite};
use numeric::vec3::Vec3;

// One satellite signal's carrier phase at one epoch.
#[derive(Clone, Copy)]
pub struct Carrier {
    pub constellation: u8,
    pub svid: u16,
    pub band: u32,
    pub adr: f64,
    pub state: i32,
    pub satellite: Vec3,
    pub elevation: f64,
    pub rate: f64,
}

// The first `count` of the carriers count.
#[derive(Clone, Copy)]
pub struct Epoch {
    pub count: usize,
    pub carriers: [Carrier; 64],
}

// One satellite's pseudorange at one epoch.
#[derive(Clone, Copy)]
pub struct Observation {
    pub constellation: u8,
    pub band: u32,
    pub svid: u16,
    pub modelled: f64,
    pub pseudorange: f64,
    pub satellite: Vec3,
    pub elevation: f64,
}

// The first `count` of the observations count.
#[derive(Clone, Copy)]
pub struct Observations {
    pub count: usize,
    pub observation: [Observation; 64],
}

// Whether x is from -90 to 90 degrees.
pub fn is_elevation(x: f64) -> bool
    ensures { result ≡ spec.is_elevation x }
{
    (-90.0 <= x) & (x <= 90.0)
}

// Whether rule 4 lets the carrier pass.
pub fn is_sound(c: Carrier) -> bool
    ensures { result ≡ spec.sound_carrier c }
{
    c.satellite.is_in_range()
        & in_range(c.rate)
        & is_elevation(c.elevation)
        & (in_range(c.adr) | !is_finite(c.adr))
}

// Whether rule 4 lets the observation pass.
pub fn is_sound_observation(o: Observation) -> bool
    ensures { result ≡ spec.sound_observation o }
{
    in_range(o.pseudorange) & o.satellite.is_in_range() & is_elevation(o.elevation)
}

// Whether the carrier can be differenced: of its three lowest state bits only the first is set, and adr is finite.
pub fn is_usable(c: Carrier) -> bool
    ensures { result ≡ spec.usable c }
{
    (c.state & 7 == 1) & is_finite(c.adr)
}
