// The trajectory smoother, over memory that the caller lends: a track through anchors (where it was) and links (how far it moved from an epoch to the next).
// What the caller lends for the result and the work is taken as 64-bit patterns, so that a refusal is promised to leave every bit.
#![tactic(auto)]

mod checks;
mod fit;
mod weigh;

ghost use Rattle.std.specs.Prelude.{◌≡◌};
ghost use Rattle.lists.specs.Memory.{lent};
ghost use Rattle.track_pass.specs.Input.{track_in};
ghost use Rattle.track_smooth.specs.Answer.{Called};

use checks::check;
use fit::fit as find;
use numeric::refusal::Refusal;
use track_pass::measured::Track;
use track_tridiagonal::fill::fill;

// `Settings`: a threshold in sigmas and the number of passes.
#[derive(Clone, Copy)]
pub struct Settings {
    pub huber: f64,
    pub iterations: usize,
}

// Puts the track of n epochs into the result: x, y, z of the first epoch, then of the next, and so on.
// `result` is 3 * n patterns long or longer, `work` 9 * n + anchors + links: the call's only memory, all zero in that part afterwards. A refusal leaves the result as it
// was, and one by 2 to 6 the work too.
pub fn smooth(
    track: Track<'_>,
    set: Settings,
    res: &mut [u64],
    work: &mut [u64],
) -> Result<(), Refusal>
    ensures { Called (track_in track.entry) set (lent res) (lent work) result }
{
    check(track, set, res.len(), work.len())?;
    let found = find(&mut *work, track, set, &mut *res);
    let need = track.epochs * 9 + track.anchors.count + track.links.count;
    fill(&mut *work, 0, need, 0);
    if found {
        return Ok(());
    }
    Err(Refusal::FitFailed)
}
