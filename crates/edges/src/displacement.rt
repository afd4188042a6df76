// The trials of a displacement.
use crate::report::{Moved, report};
use crate::sky::{epoch, equal, start};
use numeric::refusal::Refusal;
use records::record::Epoch;
use std::io;
use tdcp::displacement::{Delta, Settings, delta_position};

// Returns the displacement between two epochs a second apart.
fn between(previous: Epoch, current: Epoch, rounds: u32) -> Result<Delta, Refusal> {
    let settings = Settings {
        screen: 0.5,
        sigma_a: 0.008,
        sigma_b: 0.002,
        huber: 1.5,
        mask: 10.0,
        rounds: rounds,
        agreement: 0.0,
    };
    delta_position(previous, current, 1.0, start(), settings)
}

// Reports the displacement of n carriers at either epoch, from `slots` constellations.
fn of(rt: &impl Print, name: &str, n: usize, slots: u8) -> io::Result<()> {
    report(
        rt,
        name,
        between(epoch(n, slots, false), epoch(n, slots, true), 8).map(Moved),
    )
}

// Reports the displacement of seven carriers. The first has the given elevation at the current epoch.
fn first_up(rt: &impl Print, name: &str, elevation: f64) -> io::Result<()> {
    let mut current = epoch(7, 1, true);
    let mut c = current.carriers[0];
    c.elevation = elevation;
    current.carriers[0] = c;
    report(rt, name, between(epoch(7, 1, false), current, 8).map(Moved))
}

// Reports the displacement of seven carriers. The first has `slip` metres more phase at the current epoch: that is its detector, and the others are 0.
fn first_slips(rt: &impl Print, name: &str, slip: f64) -> io::Result<()> {
    let mut current = epoch(7, 1, true);
    let mut c = current.carriers[0];
    c.adr = c.adr + slip;
    current.carriers[0] = c;
    report(rt, name, between(epoch(7, 1, false), current, 8).map(Moved))
}

pub fn run(rt: &impl Print) -> io::Result<()> {
    of(rt, "displacement, 64 records", 64, 1)?;
    of(rt, "displacement, 65 records", 65, 1)?;
    of(rt, "displacement, 5 pairs", 5, 1)?;
    of(rt, "displacement, 6 pairs", 6, 1)?;
    of(rt, "displacement, six slots of 10 rows", 10, 6)?;
    of(rt, "displacement, seven slots of 10 rows", 10, 7)?;
    of(rt, "displacement, seven slots of 11 rows", 11, 7)?;
    first_up(rt, "displacement, elevation equal to the mask", 10.0)?;
    first_up(
        rt,
        "displacement, elevation below the mask",
        9.999999999999998,
    )?;
    first_slips(rt, "displacement, detector equal to the screen", 0.5)?;
    first_slips(rt, "displacement, detector below the screen", 0.4990234375)?;
    let six = equal(6, false);
    report(
        rt,
        "displacement, six equal pairs, zero rounds",
        between(six, six, 0).map(Moved),
    )
}
