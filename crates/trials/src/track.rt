// The marked trials of a track.
ghost use Rattle.std.specs.Prelude.{◌≡◌, true};
ghost use Rattle.lists.specs.Memory.{lent};
ghost use Rattle.trials.specs.Steps.{OneAnchor};

use numeric::refusal::answer_number;
use track_pass::measured::{Measured, Track};
use track_smooth::{Settings, smooth};

// Smooths n epochs with one anchor of sigma 1 at (5, 6, 7), of the first epoch, and no link, and returns the number of the answer.
fn one_anchor(n: usize, res: &mut [u64], work: &mut [u64]) -> u8
    ensures { OneAnchor n (lent res) (lent work) result }
{
    let epoch = [0usize; 1];
    let position = [5.0, 6.0, 7.0];
    let sigma = [1.0; 3];
    let no_epoch = [0usize; 0];
    let no_float = [0.0; 0];
    let settings = Settings {
        huber: 2.0,
        iterations: 6,
    };
    let track = Track {
        epochs: n,
        anchors: Measured {
            count: 1,
            epoch: &epoch,
            value: &position,
            sigma: &sigma,
        },
        links: Measured {
            count: 0,
            epoch: &no_epoch,
            value: &no_float,
            sigma: &no_float,
        },
    };
    answer_number(smooth(track, settings, res, work))
}

// A one-epoch track with one anchor of sigma 1 at (5, 6, 7) is that point, by its patterns.
pub fn one_point() -> bool
    ensures { result ≡ true }
{
    let mut result = [0u64; 3];
    let mut work = [0u64; 10];
    let number = one_anchor(1, &mut result, &mut work);
    (number == 0)
        & (result[0] == 0x4014_0000_0000_0000)
        & (result[1] == 0x4018_0000_0000_0000)
        & (result[2] == 0x401C_0000_0000_0000)
}

// Two epochs, one anchor, no link: 10.
pub fn not_held() -> bool
    ensures { result ≡ true }
{
    let mut result = [0u64; 6];
    let mut work = [0u64; 19];
    one_anchor(2, &mut result, &mut work) == 10
}
