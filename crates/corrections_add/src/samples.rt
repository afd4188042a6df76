// New samples in columns.
ghost use Rattle.std.specs.Prelude.{◌≡◌, ℕ, ◌^◌, ◌<◌, T, get_or};
ghost use Rattle.std.specs.Float.{binary64, nan};
ghost use Rattle.std.specs.Float.Ieee.{fits};
ghost use Rattle.corrections_directory.specs.Steps.{InSignals, signal_at};

use corrections_directory::entry::signal_at;

// The columns of new samples, and how many there are.
#[derive(Clone, Copy)]
pub struct NewSamples<'a> {
    pub count: usize,
    pub constellation: &'a [u8],
    pub svid: &'a [u16],
    pub band: &'a [u32],
    pub time: &'a [f64],
    pub metres: &'a [f64],
    ghost svids_fit: { (x : ℕ) → get_or svid.now x 0 < 2 ^ 16 },
    ghost bands_fit: { (x : ℕ) → get_or band.now x 0 < 2 ^ 32 },
    ghost times_fit: { (x : ℕ) → T (fits binary64 (get_or time.now x nan)) },
    ghost metres_fit: { (x : ℕ) → T (fits binary64 (get_or metres.now x nan)) },
}

impl<'a> NewSamples<'a> {
    ghost use Rattle.corrections_add.specs.Samples.{IsColumns};

    // Returns the columns as one struct.
    pub(crate) fn new(
        count: usize,
        constellation: &'a [u8],
        svid: &'a [u16],
        band: &'a [u32],
        time: &'a [f64],
        metres: &'a [f64],
    ) -> NewSamples<'a>
        ensures { IsColumns count constellation.entry svid.entry band.entry time.entry metres.entry result }
    {
        NewSamples {
            count: count,
            constellation: constellation,
            svid: svid,
            band: band,
            time: time,
            metres: metres,
        }
    }

    // Returns the signal of sample i as one number.
    pub(crate) fn signal_at(self, i: usize) -> u64
        requires { InSignals self.constellation.now self.svid.now self.band.now i }
        ensures { (result ≡ signal_at self.entry.constellation.now self.entry.svid.now self.entry.band.now i) × (result < 2 ^ 56) }
    {
        signal_at(self.constellation, self.svid, self.band, i)
    }
}
