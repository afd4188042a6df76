// The raw corrections of an epoch, before the base receiver's clock is removed.
ghost use Rattle.std.specs.Prelude.{◌≡◌, ◌≤◌, length};
ghost use Rattle.lists.specs.Walk.{Holds};
ghost use Rattle.corrections_epoch.specs.Raw as spec;

use crate::record::{Range, Settings, State};
use numeric::sight::{travel_angle, turned};
use numeric::vec3::Vec3;
use root::sqrt::sqrt;

// A raw correction of a signal, in metres.
#[derive(Clone, Copy)]
pub struct Raw {
    pub constellation: u8,
    pub svid: u16,
    pub band: u32,
    pub value: f64,
}

// The first `count` of the raw corrections count.
#[derive(Clone, Copy)]
pub struct Raws {
    pub count: usize,
    pub raws: [Raw; 64],
}

// Checks that the constellation is enabled; those from 7 up share one place.
pub(crate) fn is_enabled(settings: Settings, constellation: u8) -> bool
    ensures { result ≡ spec.enabled settings constellation }
{
    settings.constellations[(constellation as usize).min(7)]
}

// Checks that the state is that of the range's satellite and signal.
pub(crate) fn is_same(s: State, r: Range) -> bool
    ensures { result ≡ spec.is_state_of r s }
{
    (s.constellation == r.constellation) & (s.svid == r.svid) & (s.band == r.band)
}

// Returns the distance between two places.
fn distance(p: Vec3, o: Vec3) -> f64
    ensures { result ≡ spec.distance p o }
{
    p.sub(o).norm()
}

// Returns the satellite's place, moved from the rover's transmission time to the base's.
fn shifted(s: State, delta: f64) -> Vec3
    ensures { result ≡ spec.shifted s delta }
{
    Vec3 {
        x: s.position.x + s.velocity.x * delta,
        y: s.position.y + s.velocity.y * delta,
        z: s.position.z + s.velocity.z * delta,
    }
}

// Returns the measured range minus the range that the state predicts.
pub(crate) fn raw_value(base: Vec3, rover: Vec3, r: Range, s: State) -> f64
    ensures { result ≡ spec.raw_value base rover r s }
{
    let position = s.position;
    let nominal = distance(position, base);
    let delta = -(nominal - distance(position, rover)) / 299792458.0;
    let rotated = turned(shifted(s, delta), travel_angle(nominal));
    r.pseudorange + s.clock - s.modelled - distance(rotated, base)
}

// Returns an empty list of raw corrections.
fn no_raws() -> Raws
    ensures { result.count ≡ 0 }
{
    let nothing = Raw {
        constellation: 0,
        svid: 0,
        band: 0,
        value: 0.0,
    };
    let none = [nothing; 64];
    Raws {
        count: 0,
        raws: none,
    }
}

// Returns the raw corrections of the ranges by the states.
pub(crate) fn raws_of(
    ranges: &[Range],
    states: &[State],
    base: Vec3,
    rover: Vec3,
    settings: Settings,
) -> Raws
    requires { length ranges.now ≤ 64 }
    ensures { Holds result.count result.raws (spec.raws_of settings base rover states.now ranges.now) }
{
    let mut out = no_raws();
    for r in ranges {
        if is_enabled(settings, r.constellation) {
            for s in states {
                if is_same(*s, *r) {
                    let k = out.count;
                    let value = raw_value(base, rover, *r, *s);
                    let q = Raw {
                        constellation: r.constellation,
                        svid: r.svid,
                        band: r.band,
                        value: value,
                    };
                    out.raws[k] = q;
                    out.count = k + 1;
                    break;
                }
            }
        }
    }
    out
}
