// The passes of the fit, each weighed by the one before.
ghost use Rattle.std.specs.Prelude.{◌≤◌};
ghost use Rattle.lists.specs.Memory.{lent};
ghost use Rattle.track_pass.specs.Input.{track_in};
ghost use Rattle.track_pass.specs.Steps.{Ready};
ghost use Rattle.track_smooth.specs.Steps.{Reweighable, Reweighed, Fitted};

use crate::Settings;
use crate::weigh::{limit, weigh_anchors, weigh_links};
use track_pass::measured::Track;
use track_pass::pass::pass;
use track_tridiagonal::fill::fill;

// Weighs the anchors and the links by the fit in r.
fn reweigh(w: &mut [u64], track: Track<'_>, h: f64, r: &[u64])
    requires { Reweighable (track_in track) w.old r.now }
    ensures { Reweighed (track_in track.entry) h r.now w.old w.new }
{
    let c = limit(h);
    let from = track.epochs * 9;
    weigh_anchors(&mut *w, from, track.anchors, h, c, r);
    weigh_links(&mut *w, from + track.anchors.count, track.links, h, c, r);
}

// Fits the track. False where the first pass fails; a later one that fails ends the work and leaves the fit before it.
pub(crate) fn fit(w: &mut [u64], track: Track<'_>, set: Settings, r: &mut [u64]) -> bool
    requires { Ready (track_in track) w.old r.old × (set.iterations ≤ 50) }
    ensures { Fitted (track_in track.entry) set (lent w) (lent r) result }
{
    let n = track.epochs;
    let from = n * 9;
    let to = from + track.anchors.count + track.links.count;
    fill(&mut *w, from, to, 0x3FF0_0000_0000_0000);
    if !pass(&mut *w, track, &mut *r) {
        return false;
    }
    for _done in 1..set.iterations {
        reweigh(&mut *w, track, set.huber, &r[..n * 3]);
        if !pass(&mut *w, track, &mut *r) {
            return true;
        }
    }
    true
}
