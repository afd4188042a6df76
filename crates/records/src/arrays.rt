// Arrays for the carriers of an epoch.
ghost use Rattle.std.specs.Prelude.{◌≡◌, ◌<◌, ◌≤◌, take, replicate, pos};
ghost use Rattle.exact.specs.Float.{+0};
ghost use Rattle.records.specs.Signals.{SignalsFit};
ghost use Rattle.records.specs.Steps.{Put, Laid};

use crate::carriers::Carriers;
use crate::record::{Carrier, Epoch};
use signal::signal::signal_of;

// Room for the signals, states and floats of 64 carriers.
#[derive(Clone, Copy)]
pub struct CarrierArrays {
    pub signals: [u64; 64],
    pub states: [i32; 64],
    pub floats: [f64; 384],
}

impl CarrierArrays {
    // Arrays of zeros.
    pub fn new() -> CarrierArrays
        ensures signals { result.signals ≡ replicate 64 0 }
        ensures states { result.states ≡ replicate 64 (pos 0) }
        ensures floats { result.floats ≡ replicate 384 +0 }
    {
        CarrierArrays {
            signals: [0; 64],
            states: [0; 64],
            floats: [0.0; 384],
        }
    }

    // Writes a carrier to place i.
    pub fn put(&mut self, i: usize, c: Carrier)
        requires { i < 64 }
        ensures { Put c i self.old.signals self.old.states self.old.floats self.new.signals self.new.states self.new.floats }
    {
        let v = c.satellite;
        let bits = c.state;
        let at = 6 * i;
        self.signals[i] = signal_of(c.constellation, c.svid, c.band);
        self.states[i] = bits;
        self.floats[at] = c.adr;
        self.floats[at + 1] = v.x;
        self.floats[at + 2] = v.y;
        self.floats[at + 3] = v.z;
        self.floats[at + 4] = c.elevation;
        self.floats[at + 5] = c.rate;
    }

    // Writes the counted carriers of an epoch.
    pub fn put_epoch(&mut self, e: Epoch)
        requires { e.count ≤ 64 }
        ensures { Laid e.carriers e.count self.new.signals self.new.states self.new.floats }
    {
        for i in 0..e.count {
            let c = e.carriers[i];
            self.put(i, c);
        }
    }

    // The first n carriers.
    pub fn first(&self, n: usize) -> Carriers<'_>
        requires few { n ≤ 64 }
        requires fit { SignalsFit (take n self.now.signals) self.now.states self.now.floats }
        ensures signals { result.signals.now ≡ take n self.now.signals }
        ensures states { result.states.now ≡ self.now.states }
        ensures floats { result.floats.now ≡ self.now.floats }
    {
        Carriers {
            signals: &self.signals[..n],
            states: &self.states,
            floats: &self.floats,
        }
    }
}
