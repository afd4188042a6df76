// The times and corrections of a directory with those of new samples, from the back to the front.
ghost use Rattle.std.specs.Prelude.{◌≡◌, ◌+◌, ◌≤◌, ◌<◌, length};
ghost use Rattle.lists.specs.Memory.{held, lent};
ghost use Rattle.corrections_add.specs.Steps.{HeldBy, InLast, Mergeable, ReadingsWritten, StaysIn, TimesStay, lent_samples, shifted};

use crate::samples::NewSamples;
use corrections_directory::entry::signal_at;
use corrections_table::sample::is_earlier;
use numeric::order::{float, pattern};

// Returns the number of the first i times that are not after t, in a block in order that begins at the place first.
fn times_stay(table_time: &[u64], first: usize, i: usize, t: f64) -> usize
    requires { (first ≤ i) × (i ≤ length table_time.now) }
    ensures { TimesStay table_time.now first i t result }
{
    for p in (first..i).rev() {
        if !is_earlier(t, float(table_time[p])) {
            return p + 1;
        }
    }
    first
}

// Returns how many of the first i old samples stay before a new one of the signal `new` at the time t. Compares only those of the last block, that of the entry e - 1.
fn old_stay(
    block_constellation: &[u8],
    block_svid: &[u16],
    block_band: &[u32],
    block_first: &[usize],
    e: usize,
    table_time: &[u64],
    i: usize,
    new: u64,
    t: f64,
) -> usize
    requires { InLast block_constellation block_svid block_band block_first e table_time i }
    ensures { StaysIn block_constellation block_svid block_band block_first e table_time i new t result }
{
    if i == 0 {
        return i;
    }
    let old = signal_at(block_constellation, block_svid, block_band, e - 1);
    if old < new {
        return i;
    }
    let first = block_first[e - 1];
    if new < old {
        return first;
    }
    times_stay(table_time, first, i, t)
}

// Moves the count values from the place first on up by so many places, the last of them first. docs/DECISIONS.md has why `copy_within` does not.
fn shift(d: &mut [u64], first: usize, count: usize, by: usize)
    requires { first + count + by ≤ length d.old }
    ensures { d.new ≡ shifted first by count 0 d.old }
{
    for c in (0..count).rev() {
        d[first + c + by] = d[first + c];
    }
}

// Returns how many of the first e entries hold the first i samples: the last one goes if its block begins at i.
fn blocks_left(block_first: &[usize], e: usize, i: usize) -> usize
    requires { (0 < e) × (e ≤ length block_first.now) }
    ensures { HeldBy block_first.now e i result }
{
    if block_first[e - 1] == i {
        return e - 1;
    }
    e
}

// Writes the times and corrections of the new samples among those of a sound directory. Moves each old one at most once, those of a block together.
pub(crate) fn merge_readings(
    block_constellation: &[u8],
    block_svid: &[u16],
    block_band: &[u32],
    block_first: &[usize],
    blocks: usize,
    table_time: &mut [u64],
    table_metres: &mut [u64],
    table_count: usize,
    new: NewSamples,
)
    requires { Mergeable block_constellation block_svid block_band block_first blocks (held table_time) (held table_metres) table_count new }
    ensures { ReadingsWritten block_constellation block_svid block_band block_first blocks (lent table_time) (lent table_metres) table_count
        (lent_samples new.entry) }
{
    let mut e = blocks;
    let mut i = table_count;
    let mut j = new.count;
    while 0 < j {
        let signal = new.signal_at(j - 1);
        let time = new.time[j - 1];
        let stay = old_stay(
            block_constellation,
            block_svid,
            block_band,
            block_first,
            e,
            table_time,
            i,
            signal,
            time,
        );
        if stay < i {
            shift(table_time, stay, i - stay, j);
            shift(table_metres, stay, i - stay, j);
            i = stay;
            e = blocks_left(block_first, e, i);
        } else {
            j -= 1;
            table_time[i + j] = pattern(time);
            table_metres[i + j] = pattern(new.metres[j]);
        }
    }
}
