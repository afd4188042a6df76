// A base epoch of lent columns added to a lent directory, with both counts.
ghost use Rattle.std.specs.Prelude.{◌≡◌};
ghost use Rattle.lists.specs.Memory.{lent};
ghost use Rattle.corrections_directory.specs.Lent.{lent_table};
ghost use Rattle.corrections_add.specs.Add.{AddedBy};
ghost use Rattle.corrections_epoch_columns.specs.Columns.{columns_entry};
ghost use Rattle.corrections_epoch_columns.specs.Epoch.{settings_of};
ghost use Rattle.corrections_epoch_columns.specs.Steps.{CountsWritten};

use crate::columns::{RangeColumns, StateColumns};
use crate::epoch::{epoch_of, states_given};
use corrections_add::add::Counts;
use corrections_epoch::add_epoch::add_epoch;
use corrections_epoch::record::Settings;
use numeric::refusal::{Refusal, put};
use numeric::vec3::Vec3;

// Writes both counts and returns 0. On refusal, returns its number and changes nothing.
pub fn counts_into(
    answer: Result<Counts, Refusal>,
    blocks: &mut usize,
    table_count: &mut usize,
) -> u8
    ensures { CountsWritten answer result blocks.old blocks.new table_count.old table_count.new }
{
    put(answer.map(|c| c.entries), blocks);
    put(answer.map(|c| c.samples), table_count)
}

// Returns the settings of the greatest gap and correction, and of the constellations in use.
fn settings_of(max_gap: f64, max_correction: f64, corrected: &[bool; 8]) -> Settings
    ensures { result ≡ settings_of max_gap max_correction corrected.now }
{
    Settings {
        max_gap: max_gap,
        max_correction: max_correction,
        constellations: *corrected,
    }
}

// Adds one base epoch of ranges, with the states beside it if there are any, to the directory of `blocks` entries and `table_count` samples. Returns both counts.
// On refusal, returns it and changes nothing.
pub fn add_into(
    block_constellation: &mut [u8],
    block_svid: &mut [u16],
    block_band: &mut [u32],
    block_first: &mut [usize],
    block_samples: &mut [usize],
    blocks: usize,
    table_time: &mut [u64],
    table_metres: &mut [u64],
    table_count: usize,
    time: f64,
    ranges: RangeColumns,
    states: Option<StateColumns>,
    base: &[f64; 3],
    rover: &[f64; 3],
    max_gap: f64,
    max_correction: f64,
    corrected: &[bool; 8],
) -> Result<Counts, Refusal>
    ensures { let t = lent_table
        (lent block_constellation) (lent block_svid) (lent block_band) (lent block_first) (lent block_samples) (lent table_time) (lent table_metres) in
        let o = columns_entry blocks table_count t.before time ranges.entry states.entry base rover max_gap max_correction corrected in
        AddedBy o result blocks table_count t }
{
    let epoch = epoch_of(time, ranges);
    let satellites = states_given(states);
    let settings = settings_of(max_gap, max_correction, corrected);
    add_epoch(
        block_constellation,
        block_svid,
        block_band,
        block_first,
        block_samples,
        blocks,
        table_time,
        table_metres,
        table_count,
        epoch,
        satellites,
        Vec3::from(*base),
        Vec3::from(*rover),
        settings,
    )
}
