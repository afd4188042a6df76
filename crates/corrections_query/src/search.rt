// Finds a signal in a sound directory, and a time in a block, by halving. The last halvings are as many whatever is asked, and each chooses one of two places,
// so that the compiler makes no branch that what is asked decides.
ghost use Rattle.std.specs.Prelude.{◌≡◌, cond, ◌+◌, ◌≤◌, leb};
ghost use Rattle.std.specs.Float.Ieee.{lt};
ghost use Rattle.corrections_query.specs.Steps.{Split, is_before, SignalsSplit, LastUpTo, TimesSplit};

use corrections_directory::entry::signal_at;

// Returns the place mid where the signal s is not above g, and lo elsewhere.
fn choose_up_to(s: u64, g: u64, mid: usize, lo: usize) -> usize
    requires { lo ≤ mid }
    ensures { (result ≡ cond (leb s g) mid lo) × ((lo ≤ result) × (result ≤ mid)) }
{
    if s <= g { mid } else { lo }
}

// Returns the place mid where the time x is before t, and lo elsewhere.
fn choose_before(x: f64, t: f64, mid: usize, lo: usize) -> usize
    requires { lo ≤ mid }
    ensures { (result ≡ cond (lt x t) mid lo) × ((lo ≤ result) × (result ≤ mid)) }
{
    if x < t { mid } else { lo }
}

// Returns the last of `size` entries, at most 32, from the place `from` on, whose signal is not above `signal`, or the first of them where all are.
fn entry_within(
    block_constellation: &[u8],
    block_svid: &[u16],
    block_band: &[u32],
    signal: u64,
    from: usize,
    size: usize,
) -> usize
    requires size_bound { size ≤ 32 }
    requires signals_split { SignalsSplit block_constellation.now block_svid.now block_band.now signal from (from + size) }
    ensures { LastUpTo
        block_constellation.now block_svid.now block_band.now signal from (from + size) result }
{
    let mut lo = from;
    let mut len = size;
    for _left in (0..5u32).rev() {
        let half = len / 2;
        let mid = lo + half;
        let s = signal_at(block_constellation, block_svid, block_band, mid);
        lo = choose_up_to(s, signal, mid, lo);
        len -= half;
    }
    lo
}

// Returns the last of the entries whose signal is not above `signal`, or the first where all are.
pub(crate) fn entry_of(
    block_constellation: &[u8],
    block_svid: &[u16],
    block_band: &[u32],
    blocks: usize,
    signal: u64,
) -> usize
    requires { SignalsSplit block_constellation.now block_svid.now block_band.now signal 0 blocks }
    ensures { LastUpTo block_constellation.now block_svid.now block_band.now signal 0 blocks result }
{
    let mut lo: usize = 0;
    let mut len = blocks;
    while 32 < len {
        let half = len / 2;
        let mid = lo + half;
        let s = signal_at(block_constellation, block_svid, block_band, mid);
        lo = choose_up_to(s, signal, mid, lo);
        len -= half;
    }
    entry_within(block_constellation, block_svid, block_band, signal, lo, len)
}

// Returns the first of `size` places, at most 64, from the place `from` on, whose time is not before `time`, or the place after them.
fn front_within(table_time: &[f64], time: f64, from: usize, size: usize) -> usize
    requires size_bound { size ≤ 64 }
    requires times_split { TimesSplit table_time.now time from (from + size) }
    ensures { Split (is_before table_time.now time) from (from + size) result }
{
    let mut lo = from;
    let mut len = size;
    for _left in (0..6u32).rev() {
        let half = len / 2;
        let mid = lo + half;
        let x = table_time[mid];
        lo = choose_before(x, time, mid, lo);
        len -= half;
    }
    let x = table_time[lo];
    choose_before(x, time, lo + 1, lo)
}

// Returns the first place of a block, from first up to end, whose time is not before `time`, or its end.
pub(crate) fn front_of(table_time: &[f64], first: usize, end: usize, time: f64) -> usize
    requires { TimesSplit table_time.now time first end }
    ensures { Split (is_before table_time.now time) first end result }
{
    let mut lo = first;
    let mut len = end - first;
    while 64 < len {
        let half = len / 2;
        let mid = lo + half;
        let x = table_time[mid];
        lo = choose_before(x, time, mid, lo);
        len -= half;
    }
    front_within(table_time, time, lo, len)
}
