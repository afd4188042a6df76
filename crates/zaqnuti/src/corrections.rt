// Entry points of the corrections: one base epoch added to a directory, and the bands of an old table.
ghost use Rattle.numeric.specs.Refusal.{answer_number};
ghost use Rattle.std.specs.Prelude.{◌≡◌};
ghost use Rattle.lists.specs.Memory.{lent};
ghost use Rattle.corrections_table.specs.Widen.{widen_of, bands_after};
ghost use Rattle.corrections_directory.specs.Lent.{lent_table};
ghost use Rattle.corrections_add.specs.Add.{AddsIn};
ghost use Rattle.corrections_epoch_columns.specs.Epoch.{lent_entry};

use corrections_epoch_columns::columns::{RangeColumns, StateColumns};
use corrections_epoch_columns::lent::{add_into, counts_into};
use corrections_table::widen::widen_bands;
use numeric::refusal::answer_number;

// Adds one base epoch of ranges, with states of eight floats each (position, velocity, clock, modelled) or the mark that there are none, to the directory of
// `blocks` entries and `table_count` samples. Returns 0 and writes both counts. On refusal, returns its number and changes nothing.
#[unsafe(no_mangle)]
pub extern "C" fn zaqnuti_add_epoch(
    block_constellation: &mut [u8],
    block_svid: &mut [u16],
    block_band: &mut [u32],
    block_first: &mut [usize],
    block_samples: &mut [usize],
    blocks: &mut usize,
    table_time: &mut [u64],
    table_metres: &mut [u64],
    table_count: &mut usize,
    time: f64,
    ranges: usize,
    range_constellation: &[u8],
    range_svid: &[u16],
    range_band: &[u32],
    range_pseudorange: &[f64],
    states_present: bool,
    states: usize,
    state_constellation: &[u8],
    state_svid: &[u16],
    state_band: &[u32],
    state_floats: &[f64],
    base: &[f64; 3],
    rover: &[f64; 3],
    max_gap: f64,
    max_correction: f64,
    corrected: &[bool; 8],
) -> u8
    ensures { let t = lent_table
        (lent block_constellation) (lent block_svid) (lent block_band) (lent block_first) (lent block_samples) (lent table_time) (lent table_metres) in
        let m = blocks.old in
        let n = table_count.old in
        let o = lent_entry m n t.before time ranges range_constellation range_svid range_band range_pseudorange
        states_present states state_constellation state_svid state_band state_floats base rover max_gap max_correction corrected in
        AddsIn o result m blocks.new n table_count.new t }
{
    let entries = *blocks;
    let samples = *table_count;
    let range_columns = RangeColumns {
        count: ranges,
        constellation: range_constellation,
        svid: range_svid,
        band: range_band,
        pseudorange: range_pseudorange,
    };
    let state_columns = StateColumns {
        count: states,
        constellation: state_constellation,
        svid: state_svid,
        band: state_band,
        floats: state_floats,
    };
    let answer = add_into(
        block_constellation,
        block_svid,
        block_band,
        block_first,
        block_samples,
        entries,
        table_time,
        table_metres,
        samples,
        time,
        range_columns,
        states_present.then_some(state_columns),
        base,
        rover,
        max_gap,
        max_correction,
        corrected,
    );
    counts_into(answer, blocks, table_count)
}

// Writes the first n bands of a table with 8 bits for each to the front of a column of 32 bits. Returns 0. On refusal, returns its number and changes nothing.
#[unsafe(no_mangle)]
pub extern "C" fn zaqnuti_widen_bands(narrow: &[u8], n: usize, wide: &mut [u32]) -> u8
    ensures { let o = widen_of n narrow.now wide.old in
        (result ≡ answer_number o) × (wide.new ≡ bands_after o n narrow.now wide.old) }
{
    answer_number(widen_bands(narrow, n, wide))
}
