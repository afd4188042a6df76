// Checks the rules of a track in order.
ghost use Rattle.std.specs.Prelude.{◌≡◌, ◌≤◌, ltb, length, get_or};
ghost use Rattle.std.specs.Float.{nan};
ghost use Rattle.std.specs.Float.Ieee as Ieee;
ghost use Rattle.exact.specs.Float.{+0};
ghost use Rattle.track_tridiagonal.specs.Tridiagonal.{each_below};
ghost use Rattle.track_pass.specs.Input.{measured_in, track_in};
ghost use Rattle.track_smooth.specs.Answer.{columns_ok, settings_ok, in_range_below};
ghost use Rattle.track_smooth.specs.Steps.{track_checked};

use crate::Settings;
use numeric::real::in_range;
use numeric::refusal::Refusal;
use track_pass::measured::{Measured, Track};

// Tells whether there are at most 1,024 measurements and their columns are long enough.
fn is_long_enough(m: Measured<'_>) -> bool
    ensures { result ≡ columns_ok (measured_in m.entry) }
{
    let count = m.count;
    if count > 1024 {
        return false;
    }
    (count <= m.epoch.len()) & ((count * 3 <= m.value.len()) & (count * 3 <= m.sigma.len()))
}

// Tells whether the threshold is in range and the passes are not too many.
fn allows(set: Settings) -> bool
    ensures { result ≡ settings_ok set }
{
    in_range(set.huber) & (set.iterations <= 50)
}

// Tells whether the first `count` floats are finite and at most 1e9 in magnitude. docs/DECISIONS.md has why no `all` tells it, here and below.
fn are_in_range(v: &[f64], count: usize) -> bool
    requires { count ≤ length v.now }
    ensures { result ≡ in_range_below v.now count }
{
    for k in 0..count {
        if !in_range(v[k]) {
            return false;
        }
    }
    true
}

// Tells whether the first `count` floats are above 0.
fn are_above_zero(v: &[f64], count: usize) -> bool
    requires { count ≤ length v.now }
    ensures { result ≡ each_below (λ k. Ieee.lt +0 (get_or v.now k nan)) count }
{
    for k in 0..count {
        if !(0.0 < v[k]) {
            return false;
        }
    }
    true
}

// Tells whether the first `count` indices are below n.
fn are_below(v: &[usize], count: usize, n: usize) -> bool
    requires { count ≤ length v.now }
    ensures { result ≡ each_below (λ j. ltb (get_or v.now j 0) n) count }
{
    for k in 0..count {
        if v[k] >= n {
            return false;
        }
    }
    true
}

// Answers the first refusal that applies before the fit, with a result of `room` patterns and a work of `space`.
pub(crate) fn check(
    track: Track<'_>,
    set: Settings,
    room: usize,
    space: usize,
) -> Result<(), Refusal>
    ensures { result ≡ track_checked (track_in track.entry) set room space }
{
    let n = track.epochs;
    let anchors = track.anchors;
    let links = track.links;
    if n > 1024 {
        return Err(Refusal::TooMany);
    }
    if !is_long_enough(anchors) {
        return Err(Refusal::TooMany);
    }
    if !is_long_enough(links) {
        return Err(Refusal::TooMany);
    }
    if !((n * 3 <= room) & (n * 9 + anchors.count + links.count <= space)) {
        return Err(Refusal::TooMany);
    }
    if !allows(set) {
        return Err(Refusal::SettingOutOfRange);
    }
    let a = anchors.count * 3;
    let l = links.count * 3;
    if !(are_in_range(anchors.value, a) & are_in_range(anchors.sigma, a)) {
        return Err(Refusal::RecordOutOfRange);
    }
    if !(are_in_range(links.value, l) & are_in_range(links.sigma, l)) {
        return Err(Refusal::RecordOutOfRange);
    }
    if n == 0 {
        return Err(Refusal::BadTrack);
    }
    if anchors.count == 0 {
        return Err(Refusal::BadTrack);
    }
    if !(are_above_zero(anchors.sigma, a) & are_above_zero(links.sigma, l)) {
        return Err(Refusal::BadTrack);
    }
    if !(are_below(anchors.epoch, anchors.count, n) & are_below(links.epoch, links.count, n - 1)) {
        return Err(Refusal::BadTrack);
    }
    Ok(())
}
