// One pass: the equations of the three axes, solved side by side.
ghost use Rattle.track_pass.specs.Input.{track_in};
ghost use Rattle.lists.specs.Memory.{lent};
ghost use Rattle.track_pass.specs.Steps.{Ready, Passed};

use crate::measured::Track;
use crate::publish::publish;
use crate::system::{add_anchors, add_links};
use numeric::vec3::vector_at;
use track_tridiagonal::fill::fill;
use track_tridiagonal::solve::solve;

// Makes one pass by the scales after the rows and puts its fit into the result r. False where the pass fails, which leaves the result.
pub fn pass(w: &mut [u64], track: Track<'_>, r: &mut [u64]) -> bool
    requires { Ready (track_in track) w.old r.old }
    ensures { Passed (track_in track.entry) (lent w) (lent r) result }
{
    let n = track.epochs;
    fill(&mut *w, 0, n * 9, 0);
    if !add_anchors(&mut *w, n, track.anchors) {
        return false;
    }
    if !add_links(&mut *w, n, track.anchors.count, track.links) {
        return false;
    }
    if !solve(&mut *w, n) {
        return false;
    }
    let origin = vector_at(track.anchors.value, 0);
    publish(&w[..], n, origin, &mut *r);
    true
}
