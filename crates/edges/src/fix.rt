// The trials of a fix.
use crate::report::{Fixed, report};
use crate::sky::observations;
use numeric::refusal::Refusal;
use numeric::vec3::Vec3;
use records::record::Observations;
use std::io;
use wls::fix::{Settings, Solution, solve_full};

// Returns the fix of the observations, from a guess 100 km away.
fn from(o: Observations) -> Result<Solution, Refusal> {
    let settings = Settings {
        sigma_a: 0.5,
        sigma_b: 1.0,
        huber: 1.5,
        mask: 10.0,
        rounds: 8,
    };
    let guess = Vec3 {
        x: 1e5,
        y: 0.0,
        z: 6.37e6,
    };
    solve_full(o, guess, settings)
}

// Reports the fix of n observations from `slots` constellations.
fn of(rt: &impl Print, name: &str, n: usize, slots: u8) -> io::Result<()> {
    report(rt, name, from(observations(n, slots)).map(Fixed))
}

// Reports the fix of seven observations. The first has the given elevation.
fn first_up(rt: &impl Print, name: &str, elevation: f64) -> io::Result<()> {
    let mut o = observations(7, 1);
    let mut x = o.observation[0];
    x.elevation = elevation;
    o.observation[0] = x;
    report(rt, name, from(o).map(Fixed))
}

pub fn run(rt: &impl Print) -> io::Result<()> {
    of(rt, "fix, 64 records", 64, 1)?;
    of(rt, "fix, 65 records", 65, 1)?;
    of(rt, "fix, six slots of 10 rows", 10, 6)?;
    of(rt, "fix, seven slots of 10 rows", 10, 7)?;
    of(rt, "fix, seven slots of 11 rows", 11, 7)?;
    first_up(rt, "fix, elevation equal to the mask", 10.0)?;
    first_up(rt, "fix, elevation below the mask", 9.999999999999998)
}
