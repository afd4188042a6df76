// Entry points of the corrections: one query of a table, and many.
ghost use Rattle.lists.specs.Memory.{lent};
ghost use Rattle.corrections_directory.specs.Read.{read_table};
ghost use Rattle.corrections_query.specs.Query.{lent_query, Answers};
ghost use Rattle.corrections_queries.specs.Queries.{asked, RepliesTo};

use corrections_directory::entry::Table;
use corrections_queries::queries::{one_query, queries};
use numeric::refusal::answer_number;

// Returns 0, with the correction of a signal at a time in metres, or the number of the refusal, with metres unchanged.
#[unsafe(no_mangle)]
pub extern "C" fn zaqnuti_query(
    block_constellation: &[u8],
    block_svid: &[u16],
    block_band: &[u32],
    block_first: &[usize],
    block_samples: &[usize],
    blocks: usize,
    table_time: &[f64],
    table_metres: &[f64],
    table_count: usize,
    max_gap: f64,
    constellation: u8,
    svid: u16,
    band: u32,
    time: f64,
    metres: &mut u64,
) -> u8
    ensures { Answers (lent_query
        (read_table block_constellation block_svid block_band block_first block_samples blocks table_time table_metres table_count) max_gap
        constellation svid band time) result metres.old metres.new }
{
    let table = Table {
        block_constellation,
        block_svid,
        block_band,
        block_first,
        block_samples,
        blocks,
        table_time,
        table_metres,
        table_count,
    };
    let answer = one_query(table, max_gap, constellation, svid, band, time, *metres);
    *metres = answer.metres;
    answer.number
}

// Returns 0, with the number of each of the first count places of constellation, svid, band and time and, where it is given, its correction in metres;
// or the number of the refusal of the whole call, with numbers and metres unchanged. The table is tested once.
#[unsafe(no_mangle)]
pub extern "C" fn zaqnuti_queries(
    block_constellation: &[u8],
    block_svid: &[u16],
    block_band: &[u32],
    block_first: &[usize],
    block_samples: &[usize],
    blocks: usize,
    table_time: &[f64],
    table_metres: &[f64],
    table_count: usize,
    max_gap: f64,
    constellation: &[u8],
    svid: &[u16],
    band: &[u32],
    time: &[f64],
    count: usize,
    numbers: &mut [u8],
    metres: &mut [u64],
) -> u8
    ensures { RepliesTo
        (read_table block_constellation block_svid block_band block_first block_samples blocks table_time table_metres table_count) max_gap
        (asked constellation svid band time count) result (lent numbers) (lent metres) }
{
    let table = Table {
        block_constellation,
        block_svid,
        block_band,
        block_first,
        block_samples,
        blocks,
        table_time,
        table_metres,
        table_count,
    };
    answer_number(queries(
        table,
        max_gap,
        constellation,
        svid,
        band,
        time,
        count,
        numbers,
        metres,
    ))
}
