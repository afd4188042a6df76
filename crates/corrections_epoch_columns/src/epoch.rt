// The columns of a base epoch and of states read into records.
ghost use Rattle.std.specs.Prelude.{◌≡◌};
ghost use Rattle.corrections_epoch_columns.specs.Columns.{ranges_lack, state_held, states_lack};
ghost use Rattle.corrections_epoch_columns.specs.Steps.{GivesEpoch, GivesStates, StateIn, StatesOf};

use crate::columns::{RangeColumns, StateColumns};
use corrections_epoch::record::{BaseEpoch, Range, State, States};
use numeric::vec3::{Vec3, vector_at};

// Checks whether there are more than 64 ranges, or a column is shorter than they need.
fn ranges_lack(c: RangeColumns) -> bool
    ensures { result ≡ ranges_lack c.entry }
{
    (64 < c.count)
        | (c.constellation.len() < c.count)
        | (c.svid.len() < c.count)
        | (c.band.len() < c.count)
        | (c.pseudorange.len() < c.count)
}

// Checks whether there are more than 64 states, or a column is shorter than they need.
fn states_lack(c: StateColumns) -> bool
    ensures { result ≡ states_lack c.entry }
{
    if 64 < c.count {
        return true;
    }
    (c.constellation.len() < c.count)
        | (c.svid.len() < c.count)
        | (c.band.len() < c.count)
        | (c.floats.len() < c.count * 8)
}

// Reads the ranges into an epoch of the time, in place. Where the columns lack, it reads none, and the epoch counts 65, which 2 refuses.
pub(crate) fn epoch_of(time: f64, c: RangeColumns) -> BaseEpoch
    ensures { GivesEpoch time c.entry result }
{
    let nothing = Range {
        constellation: 0,
        svid: 0,
        band: 0,
        pseudorange: 0.0,
    };
    let mut out = BaseEpoch {
        count: 65,
        time: time,
        ranges: [nothing; 64],
    };
    if !ranges_lack(c) {
        out.count = c.count;
        for i in 0..c.count {
            out.ranges[i] = Range {
                constellation: c.constellation[i],
                svid: c.svid[i],
                band: c.band[i],
                pseudorange: c.pseudorange[i],
            };
        }
    }
    out
}

// Reads state i of the columns.
fn state_at(c: StateColumns, i: usize) -> State
    requires { StateIn i c }
    ensures { result ≡ state_held c.entry i }
{
    let at = i * 8;
    let position = vector_at(c.floats, at);
    let velocity = vector_at(c.floats, at + 3);
    State {
        constellation: c.constellation[i],
        svid: c.svid[i],
        band: c.band[i],
        position: position,
        velocity: velocity,
        clock: c.floats[at + 6],
        modelled: c.floats[at + 7],
    }
}

// Reads the states in place like the ranges. Where the columns lack, it reads none, and they count 65, which 2 refuses.
fn states_of(c: StateColumns) -> States
    ensures { StatesOf c.entry result }
{
    let nothing = State {
        constellation: 0,
        svid: 0,
        band: 0,
        position: Vec3::ZERO,
        velocity: Vec3::ZERO,
        clock: 0.0,
        modelled: 0.0,
    };
    let mut out = States {
        count: 65,
        states: [nothing; 64],
    };
    if !states_lack(c) {
        out.count = c.count;
        for i in 0..c.count {
            out.states[i] = state_at(c, i);
        }
    }
    out
}

// Reads the states, if there are any. It is a function of its own so that they are on the stack once less.
pub(crate) fn states_given(states: Option<StateColumns>) -> Option<States>
    ensures { GivesStates states.entry result }
{
    match states {
        Some(c) => Some(states_of(c)),
        None => None,
    }
}
