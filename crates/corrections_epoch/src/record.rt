// The records of a base epoch and of the satellite states beside it, and the settings.
ghost use Rattle.std.specs.Prelude.{◌≡◌, ◌≤◌};
ghost use Rattle.lists.specs.Walk.{every};
ghost use Rattle.corrections_epoch.specs.Record as spec;

use numeric::real::in_range;
use numeric::vec3::Vec3;

// A pseudorange that the base measured.
#[derive(Clone, Copy)]
pub struct Range {
    pub constellation: u8,
    pub svid: u16,
    pub band: u32,
    pub pseudorange: f64,
}

// A base epoch: the first `count` of the ranges count.
#[derive(Clone, Copy)]
pub struct BaseEpoch {
    pub count: usize,
    pub time: f64,
    pub ranges: [Range; 64],
}

// A satellite's state at the rover's epoch.
#[derive(Clone, Copy)]
pub struct State {
    pub constellation: u8,
    pub svid: u16,
    pub band: u32,
    pub position: Vec3,
    pub velocity: Vec3,
    pub clock: f64,
    pub modelled: f64,
}

// The states beside an epoch: the first `count` of the states count.
#[derive(Clone, Copy)]
pub struct States {
    pub count: usize,
    pub states: [State; 64],
}

// How corrections are made: the gap limit, the largest correction, and the constellations that are enabled.
#[derive(Clone, Copy)]
pub struct Settings {
    pub max_gap: f64,
    pub max_correction: f64,
    pub constellations: [bool; 8],
}

// Returns how many states there are.
pub(crate) fn states_count(states: &Option<States>) -> usize
    ensures { result ≡ spec.states_count states.now }
{
    match states {
        Some(s) => s.count,
        None => 0,
    }
}

// Returns the states that count.
pub(crate) fn states_of(states: &Option<States>) -> &[State]
    requires { spec.states_count states.now ≤ 64 }
    ensures { result.now ≡ spec.states_of states.now }
{
    match states {
        Some(s) => &s.states[..s.count],
        None => &[],
    }
}

// Checks rule 4 for the state.
pub(crate) fn state_in_range(s: State) -> bool
    ensures { result ≡ spec.state_in_range s }
{
    s.position.is_in_range() & s.velocity.is_in_range() & in_range(s.clock) & in_range(s.modelled)
}

// Checks rule 4 for the ranges. docs/DECISIONS.md has why no `all` does.
pub(crate) fn ranges_in_range(ranges: &[Range]) -> bool
    ensures { result ≡ every spec.range_in_range ranges.now }
{
    for r in ranges {
        if !in_range(r.pseudorange) {
            return false;
        }
    }
    true
}

// Checks rule 4 for the states.
pub(crate) fn states_in_range(states: &[State]) -> bool
    ensures { result ≡ every spec.state_in_range states.now }
{
    for s in states {
        if !state_in_range(*s) {
            return false;
        }
    }
    true
}
