// The trials of the corrections.
use crate::report::{Added, report};
use corrections_directory::entry::Table;
use corrections_epoch::add_epoch::add_epoch;
use corrections_epoch::record::{BaseEpoch, Range, Settings, State, States};
use corrections_queries::queries::one_query;
use numeric::vec3::Vec3;
use std::io;

// Returns the range to satellite `svid`, 20,000 km away.
fn range(svid: u16, pseudorange: f64) -> Range {
    Range {
        constellation: 1,
        svid: svid,
        band: 1,
        pseudorange: pseudorange,
    }
}

// Returns the states of three satellites at one place.
fn states(zero: Vec3) -> States {
    let position = Vec3 {
        x: 0.0,
        y: 0.0,
        z: 2e7,
    };
    let mut s = State {
        constellation: 1,
        svid: 1,
        band: 1,
        position: position,
        velocity: zero,
        clock: 0.0,
        modelled: 0.0,
    };
    let all = [s; 64];
    let mut out = States {
        count: 3,
        states: all,
    };
    s.svid = 2;
    out.states[1] = s;
    s.svid = 3;
    out.states[2] = s;
    out
}

// Returns an epoch of three ranges, the last of them 5 m too long.
fn three_ranges() -> BaseEpoch {
    let mut ranges = [range(1, 2e7); 64];
    ranges[1] = range(2, 2e7);
    ranges[2] = range(3, 2e7 + 5.0);
    BaseEpoch {
        count: 3,
        time: 10.0,
        ranges: ranges,
    }
}

// Reports the corrections of three ranges. The last is 5 m too long and its correction is 5 m, since the other two set the clock.
fn five_metres(rt: &impl Print, name: &str, maximum: f64) -> io::Result<()> {
    let zero = Vec3::ZERO;
    let settings = Settings {
        max_gap: 90.0,
        max_correction: maximum,
        constellations: [true; 8],
    };
    let mut block_constellation = [0u8; 4];
    let mut block_svid = [0u16; 4];
    let mut block_band = [0u32; 4];
    let mut block_first = [0usize; 4];
    let mut block_samples = [0usize; 4];
    let mut table_time = [0u64; 4];
    let mut table_metres = [0u64; 4];
    let answer = add_epoch(
        &mut block_constellation,
        &mut block_svid,
        &mut block_band,
        &mut block_first,
        &mut block_samples,
        0,
        &mut table_time,
        &mut table_metres,
        0,
        three_ranges(),
        Some(states(zero)),
        zero,
        zero,
        settings,
    );
    report(rt, name, answer.map(Added))
}

// Reports the correction at 15 s from samples of 1 m at 10 s and 3 m at 20 s.
fn half_way(rt: &impl Print, name: &str, gap: f64) -> io::Result<()> {
    let block_constellation = [1u8; 2];
    let block_svid = [5u16; 2];
    let block_band = [1u32; 2];
    let block_first = [0usize; 2];
    let block_samples = [2usize; 2];
    let table_time = [10.0, 20.0];
    let table_metres = [1.0, 3.0];
    let table = Table {
        block_constellation: &block_constellation,
        block_svid: &block_svid,
        block_band: &block_band,
        block_first: &block_first,
        block_samples: &block_samples,
        blocks: 1,
        table_time: &table_time,
        table_metres: &table_metres,
        table_count: 2,
    };
    let answer = one_query(table, gap, 1, 5, 1, 15.0, 0);
    match answer.number {
        0 => println!(rt; "{name}: metres {:016x}", answer.metres),
        number => println!(rt; "{name}: refused by {number}"),
    }
}

pub fn run(rt: &impl Print) -> io::Result<()> {
    five_metres(rt, "correction equal to the maximum", 5.0)?;
    five_metres(rt, "correction above the maximum", 4.999999999999999)?;
    half_way(rt, "gap equal to the limit", 10.0)?;
    half_way(rt, "gap above the limit", 9.999999999999998)
}
