// The line of sight between a satellite and a receiver.
ghost use Rattle.std.specs.Prelude.{◌≡◌};
ghost use Rattle.numeric.specs.Sight as spec;

use crate::real::{is_finite, travel_cosine, travel_sine};
use crate::refusal::Refusal;
use crate::vec3::Vec3;
use root::sqrt::sqrt;

// The unit vector from the satellite to the receiver, and the range.
#[derive(Clone, Copy)]
pub struct Sight {
    pub x: f64,
    pub y: f64,
    pub z: f64,
    pub range: f64,
}

// How far the earth turns while a signal travels the distance.
pub fn travel_angle(distance: f64) -> f64
    ensures { result ≡ spec.travel_angle distance }
{
    7.2921151467e-5 * distance / 299792458.0
}

// The place s, turned about the earth's axis by the travel angle t.
pub fn turned(s: Vec3, t: f64) -> Vec3
    ensures { result ≡ spec.turned s t }
{
    let sin = travel_sine(t);
    let cos = travel_cosine(t);
    Vec3 {
        x: s.x * cos + s.y * sin,
        y: -s.x * sin + s.y * cos,
        z: s.z,
    }
}

// From the satellite, turned with the earth while its signal travels the distance, to the receiver.
fn gap(satellite: Vec3, receiver: Vec3, distance: f64) -> Vec3
    ensures { result ≡ spec.gap satellite receiver distance }
{
    let t = travel_angle(distance);
    receiver.sub(turned(satellite, t))
}

// The unit vector along d, which is as long as the range.
fn along(d: Vec3, range: f64) -> Sight
    ensures { result ≡ spec.along d range }
{
    Sight {
        x: d.x / range,
        y: d.y / range,
        z: d.z / range,
        range: range,
    }
}

// The line of sight from the satellite to the receiver, whatever its range. The turn changes the distance by so little that its root helps to find the range.
pub fn sight_of(satellite: Vec3, receiver: Vec3) -> Sight
    ensures { result ≡ spec.sight_of satellite receiver }
{
    let distance = satellite.sub(receiver).norm();
    let d = gap(satellite, receiver, distance);
    let range = d.norm_beside(distance);
    along(d, range)
}

// Rule 15: whether the range is zero or not finite.
pub fn is_on_receiver(range: f64) -> bool
    ensures { result ≡ spec.on_receiver range }
{
    (range == 0.0) | !is_finite(range)
}

// The geometry of one satellite, which refuses by 15.
pub fn geometry(satellite: Vec3, receiver: Vec3) -> Result<Sight, Refusal>
    ensures { result ≡ spec.geometry satellite receiver }
{
    let s = sight_of(satellite, receiver);
    if is_on_receiver(s.range) {
        return Err(Refusal::OnReceiver);
    }
    Ok(s)
}

// The lines of sight of one satellite's places at two epochs.
#[derive(Clone, Copy)]
pub struct Sights {
    pub now: Sight,
    pub then: Sight,
}

// Both lines of sight, step by step side by side: neither waits for the other's roots, which take most of the time. The root is handed a float
// and not a vector: what lies in memory field by field is slow to read back whole.
pub fn sights_of(now: Vec3, then: Vec3, receiver: Vec3) -> Sights
    ensures { (result.now ≡ spec.sight_of now receiver) × (result.then ≡ spec.sight_of then receiver) }
{
    let u = now.sub(receiver);
    let v = then.sub(receiver);
    let a = sqrt(u.x * u.x + u.y * u.y + u.z * u.z);
    let b = sqrt(v.x * v.x + v.y * v.y + v.z * v.z);
    let d = gap(now, receiver, a);
    let e = gap(then, receiver, b);
    let g = sqrt(d.x * d.x + d.y * d.y + d.z * d.z);
    let h = sqrt(e.x * e.x + e.y * e.y + e.z * e.z);
    let s = along(d, g);
    let t = along(e, h);
    Sights { now: s, then: t }
}
