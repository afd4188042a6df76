// The directory of a sorted table.
ghost use Rattle.std.specs.Prelude.{◌≡◌, ◌≤◌, ◌<◌, length};
ghost use Rattle.lists.specs.Memory.{held, lent};
ghost use Rattle.corrections_table.specs.Lent.{columns_before};
ghost use Rattle.corrections_convert.specs.Lent.{FiledAs, lent_directory};
ghost use Rattle.corrections_convert.specs.Steps.{Run, SignalsHold, WritesEntries, entries_before, entries_now};

use corrections_table::sample::{capacity_of, is_sound};
use numeric::refusal::Refusal;

// Returns how many entries the directory's columns have room for.
fn entry_room(
    block_constellation: &[u8],
    block_svid: &[u16],
    block_band: &[u32],
    block_first: &[usize],
    block_samples: &[usize],
) -> usize
    ensures { result ≡ length (entries_before block_constellation block_svid block_band block_first block_samples) }
{
    let places = block_first.len().min(block_samples.len());
    block_constellation
        .len()
        .min(block_svid.len().min(block_band.len().min(places)))
}

// Returns where the samples of the signal at the place i end.
fn run_end(constellation: &[u8], svid: &[u16], band: &[u32], i: usize, table_count: usize) -> usize
    requires { (i < table_count) × SignalsHold table_count constellation svid band }
    ensures { Run constellation.now svid.now band.now i table_count result }
{
    let c = constellation[i];
    let v = svid[i];
    let b = band[i];
    for j in i + 1..table_count {
        if (constellation[j] != c) | (svid[j] != v) | (band[j] != b) {
            return j;
        }
    }
    table_count
}

// Writes an entry for each run of one signal, whatever sorted table the signals are of, and returns how many there are.
fn file_all(
    constellation: &[u8],
    svid: &[u16],
    band: &[u32],
    table_count: usize,
    block_constellation: &mut [u8],
    block_svid: &mut [u16],
    block_band: &mut [u32],
    block_first: &mut [usize],
    block_samples: &mut [usize],
) -> usize
    requires signals_hold { SignalsHold table_count constellation svid band }
    requires table_count_in_bounds { table_count ≤ length (entries_now (held block_constellation) (held block_svid) (held block_band) (held block_first) (held block_samples)) }
    ensures { WritesEntries constellation svid band table_count
        (lent block_constellation) (lent block_svid) (lent block_band) (lent block_first) (lent block_samples) result }
{
    let mut entries: usize = 0;
    let mut i: usize = 0;
    while i < table_count {
        let end = run_end(constellation, svid, band, i, table_count);
        block_constellation[entries] = constellation[i];
        block_svid[entries] = svid[i];
        block_band[entries] = band[i];
        block_first[entries] = i;
        block_samples[entries] = end - i;
        entries += 1;
        i = end;
    }
    entries
}

// Makes the directory of a table, which shares its times and corrections, or returns the refusal, with every column unchanged.
pub fn directory_of(
    constellation: &[u8],
    svid: &[u16],
    band: &[u32],
    table_time: &[f64],
    table_metres: &[f64],
    table_count: usize,
    block_constellation: &mut [u8],
    block_svid: &mut [u16],
    block_band: &mut [u32],
    block_first: &mut [usize],
    block_samples: &mut [usize],
) -> Result<usize, Refusal>
    ensures { let t = columns_before constellation svid band table_time table_metres in
        FiledAs table_count t (lent_directory (lent block_constellation) (lent block_svid) (lent block_band) (lent block_first) (lent block_samples) t) result }
{
    let entries = entry_room(
        block_constellation,
        block_svid,
        block_band,
        block_first,
        block_samples,
    );
    let room = entries.min(capacity_of(constellation, svid, band, table_time, table_metres));
    if room < table_count {
        return Err(Refusal::TooMany);
    }
    if !is_sound(
        constellation,
        svid,
        band,
        table_time,
        table_metres,
        table_count,
    ) {
        return Err(Refusal::RecordOutOfRange);
    }
    Ok(file_all(
        constellation,
        svid,
        band,
        table_count,
        block_constellation,
        block_svid,
        block_band,
        block_first,
        block_samples,
    ))
}
