// The table that a directory stands for.
ghost use Rattle.std.specs.Prelude.{◌≤◌, length};
ghost use Rattle.lists.specs.Memory.{held, lent};
ghost use Rattle.corrections_directory.specs.Table.{float_table};
ghost use Rattle.corrections_convert.specs.Lent.{ListedAs, lent_signal_columns};
ghost use Rattle.corrections_convert.specs.Steps.{Lays, SignalsHold, Spreads, start_of};

use corrections_directory::entry::Table;
use corrections_directory::sound::is_sound;
use numeric::refusal::Refusal;

// Writes one signal to the places from first up to end.
fn list_block(
    constellation: &mut [u8],
    svid: &mut [u16],
    band: &mut [u32],
    first: usize,
    end: usize,
    c: u8,
    v: u16,
    b: u32,
)
    requires { (first ≤ end) × SignalsHold end (held constellation) (held svid) (held band) }
    ensures { Spreads c first end (lent constellation) × (Spreads v first end (lent svid) × Spreads b first end (lent band)) }
{
    for i in first..end {
        constellation[i] = c;
        svid[i] = v;
        band[i] = b;
    }
}

// Writes the signal of each block to its places, block after block from place 0 on.
fn list_all(
    block_constellation: &[u8],
    block_svid: &[u16],
    block_band: &[u32],
    block_samples: &[usize],
    blocks: usize,
    constellation: &mut [u8],
    svid: &mut [u16],
    band: &mut [u32],
)
    requires signals_hold { SignalsHold blocks block_constellation block_svid block_band × (blocks ≤ length block_samples.now) }
    requires signals_hold_2 { SignalsHold (start_of block_samples.now blocks) (held constellation) (held svid) (held band) }
    ensures { Lays block_constellation block_samples blocks (lent constellation)
        × (Lays block_svid block_samples blocks (lent svid) × Lays block_band block_samples blocks (lent band)) }
{
    let mut place: usize = 0;
    for i in 0..blocks {
        let end = place + block_samples[i];
        let c = block_constellation[i];
        let v = block_svid[i];
        let b = block_band[i];
        list_block(constellation, svid, band, place, end, c, v, b);
        place = end;
    }
}

// Writes the signals of the table that a directory stands for, which shares its times and corrections, or returns the refusal, with every column unchanged.
pub fn signals_of(
    table: Table<f64>,
    constellation: &mut [u8],
    svid: &mut [u16],
    band: &mut [u32],
) -> Result<(), Refusal>
    ensures { let read = float_table table.entry in
        ListedAs read (lent_signal_columns (lent constellation) (lent svid) (lent band) read) result }
{
    let long = constellation.len().min(svid.len().min(band.len()));
    let room = table.capacity();
    if (room < table.blocks) | (room < table.table_count) | (long < table.table_count) {
        return Err(Refusal::TooMany);
    }
    if !is_sound(table) {
        return Err(Refusal::RecordOutOfRange);
    }
    list_all(
        table.block_constellation,
        table.block_svid,
        table.block_band,
        table.block_samples,
        table.blocks,
        constellation,
        svid,
        band,
    );
    Ok(())
}
