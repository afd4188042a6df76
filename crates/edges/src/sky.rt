// Makes skies: satellites well apart, over a receiver that moves from one place to another between two epochs.
use numeric::sight::sight_of;
use numeric::vec3::Vec3;
use records::record::{Carrier, Epoch, Observation, Observations};
use std::num::nearest_u64_to_f64;

// Returns the place of the receiver at the previous epoch, which is also the place that a fix finds.
pub fn start() -> Vec3 {
    Vec3 {
        x: 0.0,
        y: 0.0,
        z: 6.37e6,
    }
}

// Returns its place at the current epoch.
fn end() -> Vec3 {
    Vec3 {
        x: 1.0,
        y: 2.0,
        z: 6.370003e6,
    }
}

// Returns a coordinate, one of 64 steps.
fn along(n: u64) -> f64 {
    (nearest_u64_to_f64(n % 64) - 31.5) * 6e5
}

// Returns the place of satellite k.
fn satellite(k: u64) -> Vec3 {
    let i = k % 64;
    Vec3 {
        x: along(i * 37),
        y: along(i * 23),
        z: 2.4e7 + 0.2 * along(i * 11),
    }
}

// Returns the constellation after g, of `slots` in turn.
fn after(g: u8, slots: u8) -> u8 {
    if g >= slots {
        return 0;
    }
    let h = g + 1;
    if h < slots { h } else { 0 }
}

// Satellite k of the constellation g: the phase is the range, and the rate the change in range of the second between the epochs.
fn carrier(k: u64, g: u8, current: bool) -> Carrier {
    let place = satellite(k);
    let then = sight_of(place, start()).range;
    let now = sight_of(place, end()).range;
    let adr = if current { now } else { then };
    Carrier {
        constellation: g,
        svid: (k % 64) as u16,
        band: 1575,
        adr: adr,
        state: 1,
        satellite: place,
        elevation: 45.0,
        rate: now - then,
    }
}

// Returns an epoch with a count of n and equal carriers.
pub fn equal(n: usize, current: bool) -> Epoch {
    let first = carrier(0, 0, current);
    let carriers = [first; 64];
    Epoch {
        count: n,
        carriers: carriers,
    }
}

// Returns an epoch with a count of n and carriers from `slots` constellations in turn.
pub fn epoch(n: usize, slots: u8, current: bool) -> Epoch {
    let mut out = equal(n, current);
    let mut g: u8 = 0;
    for i in 0..64 {
        let c = carrier(i as u64, g, current);
        out.carriers[i] = c;
        g = after(g, slots);
    }
    out
}

// Returns the observation of satellite k of constellation g. The pseudorange is the range.
fn observation(k: u64, g: u8) -> Observation {
    let place = satellite(k);
    Observation {
        constellation: g,
        band: 1,
        svid: (k % 64) as u16,
        modelled: 0.0,
        pseudorange: sight_of(place, start()).range,
        satellite: place,
        elevation: 45.0,
    }
}

// Returns n observations from `slots` constellations in turn.
pub fn observations(n: usize, slots: u8) -> Observations {
    let first = observation(0, 0);
    let all = [first; 64];
    let mut out = Observations {
        count: n,
        observation: all,
    };
    let mut g: u8 = 0;
    for i in 0..64 {
        let o = observation(i as u64, g);
        out.observation[i] = o;
        g = after(g, slots);
    }
    out
}
