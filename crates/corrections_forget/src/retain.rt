// Keeps what a drop retains of each block, moved down to where the block before it ends.
ghost use Rattle.std.specs.Prelude.{◌≡◌, ◌-◌, ◌≤◌, length};
ghost use Rattle.lists.specs.Memory.{held, lent};
ghost use Rattle.numeric.specs.Order.{is_nan_pattern};
ghost use Rattle.corrections_directory.specs.Directory.{floats};
ghost use Rattle.corrections_directory.specs.Steps.{Timed};
ghost use Rattle.corrections_forget.specs.Steps.{Outdated, SomeDirectory, Trims, moved_down};

use corrections_directory::element::Element;

// Counts the samples before the time at the front of the block of count samples from the place first on.
fn front_of(table_time: &[u64], first: usize, count: usize, time: f64) -> usize
    requires { Timed is_nan_pattern table_time.now first count }
    ensures { Outdated (floats table_time.now) first count time result }
{
    for k in 0..count {
        let t = table_time[first + k].number();
        if !(t < time) {
            return k;
        }
    }
    count
}

// Moves the part of a column between two places down to another place. A part that lies there already is left as it is.
// docs/DECISIONS.md has why `copy_within` does not.
fn move_down(column: &mut [u64], from: usize, end: usize, to: usize)
    requires { (to ≤ from) × ((from ≤ end) × (end ≤ length column.old)) }
    ensures { column.new ≡ moved_down to from (end - from) column.old }
{
    if to < from {
        for i in 0..end - from {
            column[to + i] = column[from + i];
        }
    }
}

// Drops all but the last of each block's samples before the time, and moves what is left down. Returns how many samples are left.
pub(crate) fn trim(
    block_first: &mut [usize],
    block_samples: &mut [usize],
    blocks: usize,
    table_time: &mut [u64],
    table_metres: &mut [u64],
    time: f64,
) -> usize
    requires { SomeDirectory blocks (held block_first) (held block_samples) (held table_time) (held table_metres) }
    ensures { Trims blocks (lent block_first) (lent block_samples) (lent table_time) (lent table_metres) time result }
{
    let mut place: usize = 0;
    for i in 0..blocks {
        let first = block_first[i];
        let count = block_samples[i];
        let k = front_of(table_time, first, count, time);
        let gone = k.saturating_sub(1);
        let from = first + gone;
        let end = first + count;
        move_down(table_time, from, end, place);
        move_down(table_metres, from, end, place);
        let kept = count - gone;
        block_first[i] = place;
        block_samples[i] = kept;
        place += kept;
    }
    place
}
