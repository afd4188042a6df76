// The carrier pairs of two epochs.
ghost use Rattle.std.specs.Prelude.{◌≡◌, ◌<◌, true, ◌&&◌, eqb, get_or, length};
ghost use Rattle.std.specs.Float.Ieee.{le};
ghost use Rattle.records.specs.Record.{usable};
ghost use Rattle.records.specs.Lent.{lent_carrier, lent_carriers};
ghost use Rattle.records.specs.City.{looked};
ghost use Rattle.records.specs.Steps.{looked_at, Finds};
ghost use Rattle.records.specs.Pair as spec;

use crate::carriers::Carriers;
use crate::record::{Carrier, is_usable};
use numeric::sight::{is_on_receiver, sights_of};
use numeric::vec3::Vec3;

// What a current carrier and its previous one give: `observed` is the phase change less the geometric one, which is the measurement,
// `detector` the phase change less what the rates predict, by which a slip is found, and the ranges those of the two satellite places.
#[derive(Clone, Copy)]
pub struct Pair {
    pub unit: Vec3,
    pub constellation: u8,
    pub elevation: f64,
    pub observed: f64,
    pub detector: f64,
    pub range: f64,
    pub previous_range: f64,
}

// The first `count` of the pairs count, and `seen` is whether rule 15 lets each of them pass: where a caller asks that of the array, the compiler copies it.
// It comes after the array; before the array it would cost a copy.
#[derive(Clone, Copy)]
pub struct Pairs {
    pub count: usize,
    pub pair: [Pair; 64],
    pub seen: bool,
}

// No pairs.
pub fn no_pairs() -> Pairs
    ensures { (result.count ≡ 0) × (result.seen ≡ true) }
{
    let nothing = Pair {
        unit: Vec3::ZERO,
        constellation: 0,
        elevation: 0.0,
        observed: 0.0,
        detector: 0.0,
        range: 0.0,
        previous_range: 0.0,
    };
    let none = [nothing; 64];
    Pairs {
        count: 0,
        pair: none,
        seen: true,
    }
}

// Which carriers a displacement looks at: all, or GPS (1) and Galileo (6) on one band.
#[derive(Clone, Copy)]
pub enum Profile {
    General,
    City(u32),
}

// Whether the profile has the carrier looked at.
pub fn is_looked_at(c: Carrier, profile: Profile) -> bool
    ensures { result ≡ looked_at profile c }
{
    match profile {
        Profile::General => true,
        Profile::City(band) => {
            ((c.constellation == 1) | (c.constellation == 6)) & (c.band == band)
        }
    }
}

// Checks whether the current carrier c is considered: usable, at or above the mask, and of the profile.
pub fn is_wanted(c: Carrier, mask: f64, profile: Profile) -> bool
    ensures { result ≡ ((usable c && le mask c.elevation) && looked_at profile c) }
{
    is_usable(c) & (mask <= c.elevation) & is_looked_at(c, profile)
}

// Whether previous carrier j has this signal and is usable. Most have another signal, so that is asked first.
fn is_partner(signal: u64, previous: Carriers, j: usize) -> bool
    requires { j < length previous.signals.now }
    ensures { result ≡ (eqb (get_or previous.entry.signals.now j 0) signal && usable (lent_carrier previous.entry j)) }
{
    if previous.signals[j] != signal {
        return false;
    }
    let p = previous.carrier(j);
    is_usable(p)
}

// Where the first of them stands.
fn partner_in(signal: u64, previous: Carriers) -> Option<usize>
    ensures { Finds signal previous.entry.signals.now previous.entry.states.now previous.entry.floats.now result }
{
    for j in 0..previous.signals.len() {
        if is_partner(signal, previous, j) {
            return Some(j);
        }
    }
    None
}

// The pair of the current carrier c and the previous carrier p.
pub fn pair_of(receiver: Vec3, dt: f64, c: Carrier, p: Carrier) -> Pair
    ensures { result ≡ spec.pair_of receiver dt c p }
{
    let sights = sights_of(c.satellite, p.satellite, receiver);
    let now = sights.now;
    let then = sights.then;
    let phase = c.adr - p.adr;
    let unit = Vec3 {
        x: now.x,
        y: now.y,
        z: now.z,
    };
    Pair {
        unit: unit,
        constellation: c.constellation,
        elevation: c.elevation,
        observed: phase - (now.range - then.range),
        detector: phase - 0.5 * (c.rate + p.rate) * dt,
        range: now.range,
        previous_range: then.range,
    }
}

// Rule 15 of one pair, the current satellite before the previous: whether it lets the pair pass.
pub fn is_seen(q: Pair) -> bool
    ensures { result ≡ spec.seen q }
{
    !is_on_receiver(q.range) & !is_on_receiver(q.previous_range)
}

// The pairs of two epochs, of the carriers that the profile has looked at.
pub fn pairs_in(
    previous: Carriers,
    current: Carriers,
    receiver: Vec3,
    mask: f64,
    dt: f64,
    profile: Profile,
) -> Pairs
    ensures { spec.Paired result (spec.pairs_of receiver mask dt (lent_carriers previous.entry) (looked profile (lent_carriers current.entry))) }
{
    let mut out = no_pairs();
    for i in 0..current.signals.len() {
        let c = current.carrier(i);
        if is_wanted(c, mask, profile) {
            if let Some(j) = partner_in(current.signals[i], previous) {
                let p = previous.carrier(j);
                let q = pair_of(receiver, dt, c, p);
                let k = out.count;
                let seen = out.seen & is_seen(q);
                out.pair[k] = q;
                out.count = k + 1;
                out.seen = seen;
            }
        }
    }
    out
}
