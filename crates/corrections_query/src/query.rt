// The correction of a signal at a time: `Corrections::at` of differential.rs, with a near sample before the ends.
ghost use Rattle.std.specs.Prelude.{◌≡◌, ◌&&◌, ◌+◌, ◌-◌, ◌≤◌, length, get_or, ltb};
ghost use Rattle.std.specs.Float.{nan};
ghost use Rattle.corrections_directory.specs.Directory.{reading_rows};
ghost use Rattle.corrections_directory.specs.Steps.{Filled};
ghost use Rattle.corrections_directory.specs.Table.{float_table};
ghost use Rattle.corrections_query.specs.Query.{near, through, lent_test};
ghost use Rattle.corrections_query.specs.Steps.{Falling, is_before, BlockAnswer, OfFormat, Answerable, AnswersFor};

use crate::search::{entry_of, front_of};
use corrections_directory::entry::{Table, signal_at};
use corrections_directory::sound::is_sound;
use numeric::real::{abs, in_range, is_finite};
use numeric::refusal::Refusal;

// Tests whether the times x and t are less than 1e-6 s apart.
fn is_near(x: f64, t: f64) -> bool
    ensures { result ≡ near x t }
{
    abs(x - t) < 1e-6
}

// Tests whether the place lies before the end of a block, and its time is near.
fn near_since(table_time: &[f64], place: usize, end: usize, time: f64) -> bool
    requires { end ≤ length table_time.now }
    ensures { result ≡ (ltb place end && near (get_or table_time.now place nan) time) }
{
    place < end && is_near(table_time[place], time)
}

// Tests whether the place before this one lies in a block from first on, and its time is near.
fn near_before(table_time: &[f64], first: usize, place: usize, time: f64) -> bool
    requires { place ≤ length table_time.now }
    ensures { result ≡ (ltb first place && near (get_or table_time.now (place - 1) nan) time) }
{
    first < place && is_near(table_time[place - 1], time)
}

// Returns the line through x at the time a and y at the time b, at t.
fn line_of(t: f64, a: f64, x: f64, b: f64, y: f64) -> f64
    ensures { result ≡ through t a x b y }
{
    x + (t - a) / (b - a) * (y - x)
}

// Returns the answer of one satellite's block: count samples from the place first on.
fn answer_in(
    table_time: &[f64],
    table_metres: &[f64],
    first: usize,
    count: usize,
    max_gap: f64,
    time: f64,
) -> Result<f64, Refusal>
    requires filled { Filled (length (reading_rows table_time.now table_metres.now)) first count }
    requires falling { OfFormat table_time.now time → Falling (is_before table_time.now time) first (first + count) }
    ensures answer { BlockAnswer (reading_rows table_time.now table_metres.now) first count max_gap time result }
    ensures format { OfFormat table_time.now time }
{
    let end = first + count;
    let place = front_of(table_time, first, end, time);
    if near_since(table_time, place, end, time) {
        let value = table_metres[place];
        return Ok(value);
    }
    if near_before(table_time, first, place, time) {
        let value = table_metres[place - 1];
        return Ok(value);
    }
    if !((place < end) & (first < place)) {
        return Err(Refusal::NoCorrection);
    }
    let a = table_time[place - 1];
    let b = table_time[place];
    if b - a > max_gap {
        return Err(Refusal::NoCorrection);
    }
    let x = table_metres[place - 1];
    let y = table_metres[place];
    Ok(line_of(time, a, x, b, y))
}

// Returns the answer of a table that has passed its tests.
pub fn answer_of(table: Table<f64>, max_gap: f64, signal: u64, time: f64) -> Result<f64, Refusal>
    requires { Answerable table.blocks (float_table table).columns }
    ensures { AnswersFor table.entry.blocks (float_table table.entry).columns max_gap signal time result }
{
    if !(in_range(time) | !is_finite(time)) {
        return Err(Refusal::RecordOutOfRange);
    }
    if table.blocks == 0 {
        return Err(Refusal::NoCorrection);
    }
    let entry = entry_of(
        table.block_constellation,
        table.block_svid,
        table.block_band,
        table.blocks,
        signal,
    );
    let found = signal_at(
        table.block_constellation,
        table.block_svid,
        table.block_band,
        entry,
    );
    if found != signal {
        return Err(Refusal::NoCorrection);
    }
    let first = table.block_first[entry];
    let count = table.block_samples[entry];
    answer_in(
        table.table_time,
        table.table_metres,
        first,
        count,
        max_gap,
        time,
    )
}

// Tests a table and a gap by numbers 2 to 4, in this order.
pub fn tested(table: Table<f64>, max_gap: f64) -> Result<(), Refusal>
    ensures { result ≡ lent_test (float_table table.entry) max_gap }
{
    let room = table.capacity();
    if (room < table.blocks) | (room < table.table_count) {
        return Err(Refusal::TooMany);
    }
    if !in_range(max_gap) {
        return Err(Refusal::SettingOutOfRange);
    }
    if !is_sound(table) {
        return Err(Refusal::RecordOutOfRange);
    }
    Ok(())
}
