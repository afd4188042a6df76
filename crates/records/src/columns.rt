// The carriers of an epoch in columns that a caller lends.
ghost use Rattle.std.specs.Prelude.{◌≡◌, ◌≤◌, length};
ghost use Rattle.records.specs.Steps.{Signalled};

use signal::signal::signal_of;

// The first `count` carriers count: six floats for each (adr, x, y, z, elevation, rate), and one number in each other column.
#[derive(Clone, Copy)]
pub struct EpochColumns<'a> {
    pub constellation: &'a [u8],
    pub svid: &'a [u16],
    pub band: &'a [u32],
    pub state: &'a [i32],
    pub floats: &'a [f64],
    pub count: usize,
}

// Writes the signals of the counted carriers.
pub fn signals_into(columns: EpochColumns, signals: &mut [u64; 64])
    requires few { columns.count ≤ 64 }
    requires constellation { columns.count ≤ length columns.constellation.now }
    requires svid { columns.count ≤ length columns.svid.now }
    requires band { columns.count ≤ length columns.band.now }
    requires room { length signals.old ≡ 64 }
    ensures { Signalled columns.entry.constellation.now columns.entry.svid.now columns.entry.band.now columns.entry.count signals.new }
{
    for i in 0..columns.count {
        let constellation = columns.constellation[i];
        let svid = columns.svid[i];
        let band = columns.band[i];
        signals[i] = signal_of(constellation, svid, band);
    }
}
