// Number 4 of a directory: its faults. The times and corrections are lent as floats or as 64-bit patterns.
ghost use Rattle.std.specs.Prelude.{◌≡◌, true, ◌&&◌, ◌≤◌, length, take, drop};
ghost use Rattle.corrections_directory.specs.Directory.{ascends, directory_in, entries_in, sound_directory, tiles, timely};
ghost use Rattle.corrections_directory.specs.Lent.{TableIn};
ghost use Rattle.corrections_directory.specs.Steps.{EachBlock, Filled, Timed, timely_blocks};
ghost use Rattle.corrections_directory.specs.Table.{columns_of};

use crate::element::Element;
use crate::entry::{Table, signal_at};
use corrections_table::sample::is_earlier;

// Tests whether the entries ascend, none is empty, and their blocks lie one after the other from place 0 to table_count.
fn is_tiled<T: Element>(table: Table<T>) -> bool
    requires { table.blocks ≤ length (entries_in (columns_of T.floats table)) }
    ensures { let es = take table.entry.blocks (entries_in (columns_of T.floats table.entry)) in
        result ≡ (ascends 0 es && tiles 0 table.entry.table_count es) }
{
    let mut least: u64 = 0;
    let mut place: usize = 0;
    for i in 0..table.blocks {
        let signal = signal_at(
            table.block_constellation,
            table.block_svid,
            table.block_band,
            i,
        );
        let first = table.block_first[i];
        let count = table.block_samples[i];
        if (signal < least)
            | (first != place)
            | (count == 0)
            | (table.table_count - place < count)
        {
            return false;
        }
        least = signal + 1;
        place += count;
    }
    place == table.table_count
}

// Tests whether each of count times, from the place first on, is below the next; if so, they are in order. Several are tested at once.
fn is_rising<T: Element>(table_time: &[T], first: usize, count: usize) -> bool
    requires { Timed T.is_nan table_time.now first count }
    ensures { result ≡ true → true ≡ timely (take count (drop first (T.floats table_time.now))) }
{
    let end = first + count;
    let mut all = true;
    for i in first + 1..end {
        all = all & (table_time[i - 1].number() < table_time[i].number());
    }
    all
}

// Tests one by one whether count times, from the place first on, are in order.
fn is_timely<T: Element>(table_time: &[T], first: usize, count: usize) -> bool
    requires { Filled (length table_time.now) first count }
    ensures { result ≡ timely (take count (drop first (T.floats table_time.now))) }
{
    let end = first + count;
    for i in first + 1..end {
        if is_earlier(table_time[i].value(), table_time[i - 1].value()) {
            return false;
        }
    }
    true
}

// Tests the same, faster for a block that has no time twice.
fn in_turn<T: Element>(table_time: &[T], first: usize, count: usize) -> bool
    requires { Timed T.is_nan table_time.now first count }
    ensures { result ≡ timely (take count (drop first (T.floats table_time.now))) }
{
    if is_rising(table_time, first, count) {
        return true;
    }
    is_timely(table_time, first, count)
}

// Tests whether the times of each of the blocks are in order.
fn in_order<T: Element>(table: Table<T>) -> bool
    requires { EachBlock (Timed T.is_nan table.table_time.now) table.block_first.now table.block_samples.now table.blocks }
    ensures { result ≡ timely_blocks table.entry.block_first.now table.entry.block_samples.now (T.floats table.entry.table_time.now) table.entry.blocks }
{
    for i in 0..table.blocks {
        let first = table.block_first[i];
        let count = table.block_samples[i];
        if !in_turn(table.table_time, first, count) {
            return false;
        }
    }
    true
}

// Tests whether number 4 finds nothing in the table.
pub fn is_sound<T: Element>(table: Table<T>) -> bool
    requires { TableIn table.blocks table.table_count (columns_of T.floats table) }
    ensures { result ≡ sound_directory (directory_in table.entry.blocks table.entry.table_count (columns_of T.floats table.entry)) }
{
    if !T::all_in_reach(table.table_time, table.table_metres, table.table_count) {
        return false;
    }
    is_tiled(table) && in_order(table)
}
