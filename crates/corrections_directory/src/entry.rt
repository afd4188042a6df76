// The entries of a directory in its columns: their satellites, and how many the columns have room for.
ghost use Rattle.std.specs.Prelude.{◌≡◌, ◌^◌, ◌<◌};
ghost use Rattle.corrections_directory.specs.Directory.{block_capacity};
ghost use Rattle.corrections_directory.specs.Table.{columns_of};
ghost use Rattle.corrections_directory.specs.Steps.{InSignals, signal_at};

use crate::element::Element;
use signal::signal::signal_of;

// A directory in columns, of which the first `blocks` entries count, and the columns of times and corrections, of which the first table_count samples count.
#[derive(Clone, Copy)]
pub struct Table<'a, T> {
    pub block_constellation: &'a [u8],
    pub block_svid: &'a [u16],
    pub block_band: &'a [u32],
    pub block_first: &'a [usize],
    pub block_samples: &'a [usize],
    pub blocks: usize,
    pub table_time: &'a [T],
    pub table_metres: &'a [T],
    pub table_count: usize,
}

impl<'a, T: Element> Table<'a, T> {
    // Returns the capacity: the length of the shortest of the seven columns, at most 2,048.
    pub fn capacity(self) -> usize
        ensures { result ≡ block_capacity (columns_of T.floats self.entry) }
    {
        let places = self.block_first.len().min(self.block_samples.len());
        let bands = self.block_band.len().min(places);
        let entries = self
            .block_constellation
            .len()
            .min(self.block_svid.len().min(bands));
        2048usize.min(entries.min(self.table_time.len().min(self.table_metres.len())))
    }
}

// Returns the signal at the place i of three columns, as one number.
pub fn signal_at(constellation: &[u8], svid: &[u16], band: &[u32], i: usize) -> u64
    requires { InSignals constellation.now svid.now band.now i }
    ensures { (result ≡ signal_at constellation.now svid.now band.now i) × (result < 2 ^ 56) }
{
    signal_of(constellation[i], svid[i], band[i])
}
