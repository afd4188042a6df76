// Forgetting in a directory, or the refusal.
ghost use Rattle.std.specs.Prelude.{◌≡◌};
ghost use Rattle.lists.specs.Memory.{lent};
ghost use Rattle.corrections_directory.specs.Directory.{floats};
ghost use Rattle.corrections_directory.specs.Lent.{lent_table};
ghost use Rattle.corrections_directory.specs.Table.{table_of};
ghost use Rattle.corrections_forget.specs.Forget.{Forgot};
ghost use Rattle.corrections_forget.specs.Steps.{forget_test};

use crate::retain::trim;
use corrections_directory::entry::Table;
use corrections_directory::sound::is_sound;
use numeric::real::is_finite;
use numeric::refusal::Refusal;

// Checks numbers 2, 4 and 18, in this order.
fn tested(table: Table<u64>, time: f64) -> Result<(), Refusal>
    ensures { result ≡ forget_test (table_of floats table.entry) time }
{
    let room = table.capacity();
    if (room < table.blocks) | (room < table.table_count) {
        return Err(Refusal::TooMany);
    }
    if !is_sound(table) {
        return Err(Refusal::RecordOutOfRange);
    }
    if !is_finite(time) {
        return Err(Refusal::BadDropTime);
    }
    Ok(())
}

// Drops samples earlier than the time, keeping each satellite's newest of these. Returns how many samples are left. On refusal, returns it and changes nothing.
pub fn forget(
    block_constellation: &[u8],
    block_svid: &[u16],
    block_band: &[u32],
    block_first: &mut [usize],
    block_samples: &mut [usize],
    blocks: usize,
    table_time: &mut [u64],
    table_metres: &mut [u64],
    table_count: usize,
    time: f64,
) -> Result<usize, Refusal>
    ensures { Forgot blocks table_count
        (lent_table block_constellation block_svid block_band (lent block_first) (lent block_samples) (lent table_time) (lent table_metres)) time result }
{
    let table = Table {
        block_constellation,
        block_svid,
        block_band,
        block_first,
        block_samples,
        blocks,
        table_time,
        table_metres,
        table_count,
    };
    tested(table, time)?;
    Ok(trim(
        block_first,
        block_samples,
        blocks,
        table_time,
        table_metres,
        time,
    ))
}
