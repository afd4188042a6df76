// Entry points of the two forms of a table.
ghost use Rattle.corrections_table.specs.Lent.{columns_before};
ghost use Rattle.lists.specs.Memory.{lent};
ghost use Rattle.corrections_directory.specs.Read.{read_table};
ghost use Rattle.corrections_convert.specs.Lent.{FilesIn, ListsIn, lent_directory, lent_signal_columns};

use corrections_convert::directory_of::directory_of;
use corrections_convert::signals_of::signals_of;
use corrections_directory::entry::Table;
use numeric::refusal::{answer_number, put};

// Returns 0, with the directory of a table, which shares its times and corrections, and the count of its entries; or the number of the refusal, with all of these
// unchanged.
#[unsafe(no_mangle)]
pub extern "C" fn zaqnuti_directory_of(
    constellation: &[u8],
    svid: &[u16],
    band: &[u32],
    table_time: &[f64],
    table_metres: &[f64],
    table_count: usize,
    block_constellation: &mut [u8],
    block_svid: &mut [u16],
    block_band: &mut [u32],
    block_first: &mut [usize],
    block_samples: &mut [usize],
    blocks: &mut usize,
) -> u8
    ensures { let t = columns_before constellation svid band table_time table_metres in
        FilesIn table_count t (lent_directory
        (lent block_constellation) (lent block_svid) (lent block_band) (lent block_first) (lent block_samples) t) result (lent blocks) }
{
    let answer = directory_of(
        constellation,
        svid,
        band,
        table_time,
        table_metres,
        table_count,
        block_constellation,
        block_svid,
        block_band,
        block_first,
        block_samples,
    );
    put(answer, blocks)
}

// Returns 0, with the signals of the table that a directory stands for, or the number of the refusal, with the three columns unchanged.
#[unsafe(no_mangle)]
pub extern "C" fn zaqnuti_signals_of(
    block_constellation: &[u8],
    block_svid: &[u16],
    block_band: &[u32],
    block_first: &[usize],
    block_samples: &[usize],
    blocks: usize,
    table_time: &[f64],
    table_metres: &[f64],
    table_count: usize,
    constellation: &mut [u8],
    svid: &mut [u16],
    band: &mut [u32],
) -> u8
    ensures { let table = read_table
        block_constellation block_svid block_band block_first block_samples blocks table_time table_metres table_count in
        ListsIn table (lent_signal_columns (lent constellation) (lent svid) (lent band) table) result }
{
    let table = Table {
        block_constellation,
        block_svid,
        block_band,
        block_first,
        block_samples,
        blocks,
        table_time,
        table_metres,
        table_count,
    };
    answer_number(signals_of(table, constellation, svid, band))
}
