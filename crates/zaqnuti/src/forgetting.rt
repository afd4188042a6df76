// Entry point of the corrections: forgetting the samples before a time.
ghost use Rattle.lists.specs.Memory.{lent};
ghost use Rattle.corrections_directory.specs.Lent.{lent_table};
ghost use Rattle.corrections_forget.specs.Forget.{ForgetsIn};

use corrections_forget::forget::forget;
use numeric::refusal::put;

// Drops samples earlier than `time`, keeping each satellite's newest of these, and sets `table_count` to how many are left; the directory keeps its
// entries. Returns 0. On refusal, returns its number and changes nothing.
#[unsafe(no_mangle)]
pub extern "C" fn zaqnuti_forget(
    block_constellation: &[u8],
    block_svid: &[u16],
    block_band: &[u32],
    block_first: &mut [usize],
    block_samples: &mut [usize],
    blocks: usize,
    table_time: &mut [u64],
    table_metres: &mut [u64],
    table_count: &mut usize,
    time: f64,
) -> u8
    ensures { ForgetsIn blocks table_count.old (lent_table
        block_constellation block_svid block_band (lent block_first) (lent block_samples) (lent table_time) (lent table_metres)) time result table_count.new }
{
    let count = *table_count;
    let answer = forget(
        block_constellation,
        block_svid,
        block_band,
        block_first,
        block_samples,
        blocks,
        table_time,
        table_metres,
        count,
        time,
    );
    put(answer, table_count)
}
