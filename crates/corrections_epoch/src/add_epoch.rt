// One base epoch added to the table, which is a directory beside the columns of times and corrections.
ghost use Rattle.std.specs.Prelude.{◌≡◌};
ghost use Rattle.lists.specs.Memory.{lent};
ghost use Rattle.corrections_directory.specs.Lent.{lent_table};
ghost use Rattle.corrections_epoch.specs.AddEpoch.{AddsBaseEpoch};
ghost use Rattle.corrections_epoch.specs.Steps.{records_test};

use crate::raw::raws_of;
use crate::record::{
    BaseEpoch, Settings, States, ranges_in_range, states_count, states_in_range, states_of,
};
use crate::sample::samples_of;
use corrections_add::add::{Counts, add};
use corrections_directory::entry::Table;
use numeric::real::in_range;
use numeric::refusal::Refusal;
use numeric::vec3::Vec3;

// Checks numbers 2, 3 and 4 of all but the table's records, in this order; room is the capacity of the table's columns.
fn records_tested(
    blocks: usize,
    table_count: usize,
    room: usize,
    epoch: &BaseEpoch,
    states: &Option<States>,
    base: Vec3,
    rover: Vec3,
    settings: Settings,
) -> Result<(), Refusal>
    ensures { result ≡ records_test blocks table_count room epoch.now states.now base rover settings }
{
    let k = epoch.count;
    let j = states_count(states);
    if (room < blocks) | ((room < table_count) | (64 < k) | (64 < j)) {
        return Err(Refusal::TooMany);
    }
    if !(in_range(settings.max_gap) & in_range(settings.max_correction)) {
        return Err(Refusal::SettingOutOfRange);
    }
    if !(base.is_in_range() & rover.is_in_range() & in_range(epoch.time)) {
        return Err(Refusal::RecordOutOfRange);
    }
    if !ranges_in_range(&epoch.ranges[..k]) {
        return Err(Refusal::RecordOutOfRange);
    }
    if !states_in_range(states_of(states)) {
        return Err(Refusal::RecordOutOfRange);
    }
    Ok(())
}

// Adds the epoch's corrections to the directory of `blocks` entries and `table_count` samples. Returns both counts. On refusal, returns it and changes nothing.
pub fn add_epoch(
    block_constellation: &mut [u8],
    block_svid: &mut [u16],
    block_band: &mut [u32],
    block_first: &mut [usize],
    block_samples: &mut [usize],
    blocks: usize,
    table_time: &mut [u64],
    table_metres: &mut [u64],
    table_count: usize,
    epoch: BaseEpoch,
    states: Option<States>,
    base: Vec3,
    rover: Vec3,
    settings: Settings,
) -> Result<Counts, Refusal>
    ensures { AddsBaseEpoch epoch states base rover settings result blocks table_count (lent_table
        (lent block_constellation) (lent block_svid) (lent block_band) (lent block_first) (lent block_samples) (lent table_time) (lent table_metres)) }
{
    let table = Table {
        block_constellation,
        block_svid,
        block_band,
        block_first,
        block_samples,
        blocks,
        table_time,
        table_metres,
        table_count,
    };
    records_tested(
        blocks,
        table_count,
        table.capacity(),
        &epoch,
        &states,
        base,
        rover,
        settings,
    )?;
    let ranges = &epoch.ranges[..epoch.count];
    let raws = raws_of(ranges, states_of(&states), base, rover, settings);
    let samples = samples_of(
        &raws.raws[..raws.count],
        epoch.time,
        settings.max_correction,
    );
    add(
        block_constellation,
        block_svid,
        block_band,
        block_first,
        block_samples,
        blocks,
        table_time,
        table_metres,
        table_count,
        samples,
    )
}
