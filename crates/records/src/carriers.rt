// The carriers of an epoch as signals, states and floats: one signal and one state for each carrier, and six floats.
ghost use Rattle.records.specs.Signals.{SignalsFit};

use crate::record::{Carrier, is_sound};
use numeric::vec3::vector_at;
use signal::signal::{band_in, constellation_in, svid_in};

// Lent carriers, at most 64: as many as there are signals.
#[derive(Clone, Copy)]
pub struct Carriers<'a> {
    pub signals: &'a [u64],
    pub states: &'a [i32],
    pub floats: &'a [f64],
    pub ghost fit: { SignalsFit signals.now states.now floats.now },
}

impl<'a> Carriers<'a> {
    ghost use Rattle.std.specs.Prelude.{◌≡◌, ◌<◌, length};
    ghost use Rattle.lists.specs.Walk.{every};
    ghost use Rattle.records.specs.Record.{sound_carrier};
    ghost use Rattle.records.specs.Lent.{lent_carrier, lent_carriers};

    // Carrier i.
    pub(crate) fn carrier(self, i: usize) -> Carrier
        requires { i < length self.signals.now }
        ensures { result ≡ lent_carrier self.entry i }
    {
        let s = self.signals[i];
        let constellation = constellation_in(s);
        let svid = svid_in(s);
        let band = band_in(s);
        let state = self.states[i];
        let at = 6 * i;
        let satellite = vector_at(self.floats, at + 1);
        Carrier {
            constellation,
            svid,
            band,
            adr: self.floats[at],
            state,
            satellite,
            elevation: self.floats[at + 4],
            rate: self.floats[at + 5],
        }
    }

    // Whether rule 4 lets each of the carriers pass.
    pub fn is_sound(self) -> bool
        ensures { result ≡ every sound_carrier (lent_carriers self.entry) }
    {
        for i in 0..self.signals.len() {
            let c = self.carrier(i);
            if !is_sound(c) {
                return false;
            }
        }
        true
    }
}
