// Entry point of the track. What a caller lends as doubles for the result and the work is taken as their patterns, so that a refusal is promised to leave every bit.
ghost use Rattle.track_pass.specs.Input.{lent_track};
ghost use Rattle.lists.specs.Memory.{lent};
ghost use Rattle.zaqnuti.specs.Track.{settings, TrackCalled};

use numeric::refusal::answer_number;
use track_pass::measured::{Measured, Track};
use track_smooth::{Settings, smooth};

// Puts the track of some epochs into `result` and answers 0, or the number of the refusal.
#[unsafe(no_mangle)]
pub extern "C" fn zaqnuti_smooth(
    epochs: usize,
    anchors: usize,
    links: usize,
    anchor_epoch: &[usize],
    anchor_position: &[f64],
    anchor_sigma: &[f64],
    link_epoch: &[usize],
    link_change: &[f64],
    link_sigma: &[f64],
    huber: f64,
    iterations: usize,
    res: &mut [u64],
    work: &mut [u64],
) -> u8
    ensures { let p = lent_track epochs anchors anchor_epoch anchor_position anchor_sigma links link_epoch link_change link_sigma in
        TrackCalled p (settings huber iterations) (lent res) (lent work) result }
{
    let track = Track {
        epochs,
        anchors: Measured {
            count: anchors,
            epoch: anchor_epoch,
            value: anchor_position,
            sigma: anchor_sigma,
        },
        links: Measured {
            count: links,
            epoch: link_epoch,
            value: link_change,
            sigma: link_sigma,
        },
    };
    let set = Settings { huber, iterations };
    answer_number(smooth(track, set, res, work))
}
