// New samples to a directory, or the refusal.
ghost use Rattle.std.specs.Prelude.{◌≡◌, true, ◌≤◌, take};
ghost use Rattle.lists.specs.Memory.{held, lent};
ghost use Rattle.lists.specs.Walk.{every};
ghost use Rattle.corrections_table.specs.Table.{ranged};
ghost use Rattle.corrections_directory.specs.Lent.{lent_table, table_now};
ghost use Rattle.corrections_add.specs.Add.{AddsSamples};
ghost use Rattle.corrections_add.specs.Steps.{Fitting, Gains, SortedNew, lent_samples, table_test};

use crate::entries::enter;
use crate::readings::merge_readings;
use crate::samples::NewSamples;
use corrections_directory::entry::Table;
use corrections_directory::sound::is_sound;
use corrections_table::add::{Samples, all_ranged, insert_all};
use corrections_table::sample::Sample;
use numeric::refusal::Refusal;

// How many entries and samples a directory has.
#[derive(Clone, Copy)]
pub struct Counts {
    pub entries: usize,
    pub samples: usize,
}

// Checks numbers 2, 4 and 11, in this order.
fn tested(table: Table<u64>, new: Samples) -> Result<(), Refusal>
    ensures { result ≡ table_test new table.entry }
{
    let room = table.capacity();
    if (room < table.blocks) | (room < table.table_count) | (64 < new.count) {
        return Err(Refusal::TooMany);
    }
    if !is_sound(table) {
        return Err(Refusal::RecordOutOfRange);
    }
    if !all_ranged(new) {
        return Err(Refusal::RecordOutOfRange);
    }
    if room < table.table_count + new.count {
        return Err(Refusal::TableFull);
    }
    Ok(())
}

// Merges the sorted samples `new` into a sound directory that has room for them all. Returns how many entries there are now.
fn merge(
    block_constellation: &mut [u8],
    block_svid: &mut [u16],
    block_band: &mut [u32],
    block_first: &mut [usize],
    block_samples: &mut [usize],
    blocks: usize,
    table_time: &mut [u64],
    table_metres: &mut [u64],
    table_count: usize,
    new: NewSamples,
) -> usize
    requires fitting { Fitting blocks table_count new.count (table_now
        (held block_constellation) (held block_svid) (held block_band) (held block_first) (held block_samples) (held table_time) (held table_metres)) }
    requires sorted_new { SortedNew new }
    ensures { Gains (lent_samples new.entry) result blocks table_count (lent_table
        (lent block_constellation) (lent block_svid) (lent block_band) (lent block_first) (lent block_samples) (lent table_time) (lent table_metres)) }
{
    merge_readings(
        block_constellation,
        block_svid,
        block_band,
        block_first,
        blocks,
        table_time,
        table_metres,
        table_count,
        new,
    );
    enter(
        block_constellation,
        block_svid,
        block_band,
        block_first,
        block_samples,
        blocks,
        table_count,
        new,
    )
}

// Sorts the first new_count samples of new and merges them into a sound directory that has room for them all. Returns how many entries there are now.
fn place(
    block_constellation: &mut [u8],
    block_svid: &mut [u16],
    block_band: &mut [u32],
    block_first: &mut [usize],
    block_samples: &mut [usize],
    blocks: usize,
    table_time: &mut [u64],
    table_metres: &mut [u64],
    table_count: usize,
    new: [Sample; 64],
    new_count: usize,
) -> usize
    requires new_count_bound { (new_count ≤ 64) × (every ranged (take new_count new) ≡ true) }
    requires fitting { Fitting blocks table_count new_count (table_now
        (held block_constellation) (held block_svid) (held block_band) (held block_first) (held block_samples) (held table_time) (held table_metres)) }
    ensures { Gains (take new_count new) result blocks table_count (lent_table
        (lent block_constellation) (lent block_svid) (lent block_band) (lent block_first) (lent block_samples) (lent table_time) (lent table_metres)) }
{
    let mut new_constellation = [0u8; 64];
    let mut new_svid = [0u16; 64];
    let mut new_band = [0u32; 64];
    let mut new_time = [0.0f64; 64];
    let mut new_metres = [0.0f64; 64];
    insert_all(
        &mut new_constellation,
        &mut new_svid,
        &mut new_band,
        &mut new_time,
        &mut new_metres,
        0,
        new,
        new_count,
    );
    let sorted = NewSamples::new(
        new_count,
        &new_constellation,
        &new_svid,
        &new_band,
        &new_time,
        &new_metres,
    );
    merge(
        block_constellation,
        block_svid,
        block_band,
        block_first,
        block_samples,
        blocks,
        table_time,
        table_metres,
        table_count,
        sorted,
    )
}

// Adds the counted samples of new to the directory of `blocks` entries and `table_count` samples. Returns both counts. On refusal, returns it and changes nothing.
pub fn add(
    block_constellation: &mut [u8],
    block_svid: &mut [u16],
    block_band: &mut [u32],
    block_first: &mut [usize],
    block_samples: &mut [usize],
    blocks: usize,
    table_time: &mut [u64],
    table_metres: &mut [u64],
    table_count: usize,
    new: Samples,
) -> Result<Counts, Refusal>
    ensures { AddsSamples new result blocks table_count (lent_table
        (lent block_constellation) (lent block_svid) (lent block_band) (lent block_first) (lent block_samples) (lent table_time) (lent table_metres)) }
{
    let table = Table {
        block_constellation,
        block_svid,
        block_band,
        block_first,
        block_samples,
        blocks,
        table_time,
        table_metres,
        table_count,
    };
    tested(table, new)?;
    let new_count = new.count;
    let samples = new.samples;
    let entries = place(
        block_constellation,
        block_svid,
        block_band,
        block_first,
        block_samples,
        blocks,
        table_time,
        table_metres,
        table_count,
        samples,
        new_count,
    );
    Ok(Counts {
        entries: entries,
        samples: table_count + new_count,
    })
}
