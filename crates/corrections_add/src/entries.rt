// The entries of a directory with new samples, from the back to the front.
ghost use Rattle.std.specs.Prelude.{◌≤◌, ◌<◌};
ghost use Rattle.lists.specs.Memory.{held, lent};
ghost use Rattle.corrections_add.specs.Steps.{Countable, Counted, Ending, Enterable, Enters, EntriesWritten, Found, NewIn, NewLast, OwnFrom, Writable};

use crate::samples::NewSamples;
use corrections_directory::entry::signal_at;

// The last entry of the first blocks with the first new samples, and how many blocks and new samples come before it.
#[derive(Clone, Copy)]
pub struct Last {
    pub entries: usize,
    pub samples: usize,
    pub constellation: u8,
    pub svid: u16,
    pub band: u32,
    pub first: usize,
    pub count: usize,
}

// Finds where the last of the first j new samples that are of the signal g begin.
fn own_start(new: NewSamples, j: usize, g: u64) -> usize
    requires { NewIn j new }
    ensures { OwnFrom new.entry.constellation.now new.entry.svid.now new.entry.band.now g result j }
{
    for a in (0..j).rev() {
        let h = new.signal_at(a);
        if h != g {
            return a + 1;
        }
    }
    0
}

// Returns the block of the last new samples alone, after i blocks; together they end at `end`.
fn new_last(i: usize, new: NewSamples, j: usize, end: usize) -> Last
    requires { (0 < j) × ((j ≤ end) × NewIn j new) }
    ensures { NewLast new.entry.constellation.now new.entry.svid.now new.entry.band.now i j end result }
{
    let g = new.signal_at(j - 1);
    let a = own_start(new, j, g);
    Last {
        entries: i,
        samples: a,
        constellation: new.constellation[j - 1],
        svid: new.svid[j - 1],
        band: new.band[j - 1],
        first: end - (j - a),
        count: j - a,
    }
}

// Finds the last entry of the first i blocks with the first j new samples, which together end at `end`: an old block with the new samples of its satellite,
// or a block of new ones.
fn last_of(
    block_constellation: &[u8],
    block_svid: &[u16],
    block_band: &[u32],
    block_first: &[usize],
    block_samples: &[usize],
    i: usize,
    new: NewSamples,
    j: usize,
    end: usize,
) -> Last
    requires { Ending block_constellation block_svid block_band block_first block_samples i new j end }
    ensures { Found block_constellation block_svid block_band block_first block_samples i new.entry j end result }
{
    if i == 0 {
        return new_last(i, new, j, end);
    }
    let g = new.signal_at(j - 1);
    let h = signal_at(block_constellation, block_svid, block_band, i - 1);
    if h < g {
        return new_last(i, new, j, end);
    }
    let a = own_start(new, j, h);
    Last {
        entries: i - 1,
        samples: a,
        constellation: block_constellation[i - 1],
        svid: block_svid[i - 1],
        band: block_band[i - 1],
        first: block_first[i - 1] + a,
        count: block_samples[i - 1] + (j - a),
    }
}

// Counts the entries that the directory of `blocks` entries and `table_count` samples has with the new samples.
fn entries_after(
    block_constellation: &[u8],
    block_svid: &[u16],
    block_band: &[u32],
    block_first: &[usize],
    block_samples: &[usize],
    blocks: usize,
    table_count: usize,
    new: NewSamples,
) -> usize
    requires { Countable block_constellation block_svid block_band block_first block_samples blocks table_count new }
    ensures { Counted block_constellation block_svid block_band block_first block_samples blocks table_count new.entry result }
{
    let mut i = blocks;
    let mut j = new.count;
    let mut end = table_count + new.count;
    let mut count: usize = 0;
    while 0 < j {
        let last = last_of(
            block_constellation,
            block_svid,
            block_band,
            block_first,
            block_samples,
            i,
            new,
            j,
            end,
        );
        i = last.entries;
        j = last.samples;
        end = last.first;
        count += 1;
    }
    count + i
}

// Writes the `count` entries of the directory of `blocks` entries and `table_count` samples with the new samples. Moves each old one at most once.
fn merge_entries(
    block_constellation: &mut [u8],
    block_svid: &mut [u16],
    block_band: &mut [u32],
    block_first: &mut [usize],
    block_samples: &mut [usize],
    blocks: usize,
    table_count: usize,
    new: NewSamples,
    count: usize,
)
    requires { Writable (held block_constellation) (held block_svid) (held block_band) (held block_first) (held block_samples) blocks table_count new count }
    ensures { EntriesWritten
        (lent block_constellation) (lent block_svid) (lent block_band) (lent block_first) (lent block_samples) blocks table_count new.entry }
{
    let mut i = blocks;
    let mut j = new.count;
    let mut end = table_count + new.count;
    let mut w = count;
    while 0 < j {
        let last = last_of(
            block_constellation,
            block_svid,
            block_band,
            block_first,
            block_samples,
            i,
            new,
            j,
            end,
        );
        w -= 1;
        block_constellation[w] = last.constellation;
        block_svid[w] = last.svid;
        block_band[w] = last.band;
        block_first[w] = last.first;
        block_samples[w] = last.count;
        i = last.entries;
        j = last.samples;
        end = last.first;
    }
}

// Writes the entries of the directory of `blocks` entries and `table_count` samples with the new samples. Returns how many there are.
pub(crate) fn enter(
    block_constellation: &mut [u8],
    block_svid: &mut [u16],
    block_band: &mut [u32],
    block_first: &mut [usize],
    block_samples: &mut [usize],
    blocks: usize,
    table_count: usize,
    new: NewSamples,
) -> usize
    requires { Enterable (held block_constellation) (held block_svid) (held block_band) (held block_first) (held block_samples) blocks table_count new }
    ensures { Enters
        (lent block_constellation) (lent block_svid) (lent block_band) (lent block_first) (lent block_samples) blocks table_count new.entry result }
{
    let count = entries_after(
        block_constellation,
        block_svid,
        block_band,
        block_first,
        block_samples,
        blocks,
        table_count,
        new,
    );
    merge_entries(
        block_constellation,
        block_svid,
        block_band,
        block_first,
        block_samples,
        blocks,
        table_count,
        new,
        count,
    );
    count
}
