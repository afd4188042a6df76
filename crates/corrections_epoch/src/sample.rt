// The samples that an epoch's raw corrections give, once the base receiver's clock is removed.
ghost use Rattle.std.specs.Prelude.{◌≡◌, ℕ, ◌≤◌, ◌<◌, get_or, length};
ghost use Rattle.lists.specs.Walk.{Holds};
ghost use Rattle.corrections_epoch.specs.Sample as spec;
ghost use Rattle.corrections_epoch.specs.Steps.{clock_by};

use crate::raw::Raw;
use corrections_table::add::Samples;
use corrections_table::sample::Sample;
use median::median::median;
use numeric::order::{float, pattern};
use numeric::real::{abs, is_finite};

// Returns the base receiver's clock by the patterns of a group's values, if there are at least three.
fn clock_of(values: &[u64]) -> Option<f64>
    requires { length values.now ≤ 64 }
    ensures { result ≡ clock_by values.now }
{
    if values.len() < 3 {
        return None;
    }
    Some(float(median(values)))
}

// Returns the clocks of the constellations 0 to 7.
fn clocks_of(raws: &[Raw]) -> [Option<f64>; 8]
    requires { length raws.now ≤ 64 }
    ensures { (c : ℕ) → c < 8 → get_or result c None ≡ clock_by (spec.patterns_of (spec.group c raws.now)) }
{
    let mut clocks = [None; 8];
    let mut values = [0u64; 64];
    for c in 0..8u8 {
        let mut k: usize = 0;
        for r in raws {
            if r.constellation == c {
                values[k] = pattern(r.value);
                k += 1;
            }
        }
        clocks[c as usize] = clock_of(&values[..k]);
    }
    clocks
}

// Checks that a correction is kept: finite and not above the maximum in magnitude.
fn is_kept(x: f64, max: f64) -> bool
    ensures { result ≡ spec.kept max x }
{
    !(max < abs(x)) & is_finite(x)
}

// Returns an empty list of samples.
fn no_samples() -> Samples
    ensures { result.count ≡ 0 }
{
    let nothing = Sample {
        constellation: 0,
        svid: 0,
        band: 0,
        time: 0.0,
        correction: 0.0,
    };
    let none = [nothing; 64];
    Samples {
        count: 0,
        samples: none,
    }
}

// Returns the samples at the time, in the order of the raw corrections.
pub(crate) fn samples_of(raws: &[Raw], time: f64, max: f64) -> Samples
    requires { length raws.now ≤ 64 }
    ensures { Holds result.count result.samples (spec.samples_of time max raws.now) }
{
    let clocks = clocks_of(raws);
    let mut out = no_samples();
    for r in raws {
        if r.constellation < 8 {
            if let Some(clock) = clocks[r.constellation as usize] {
                let x = r.value - clock;
                if is_kept(x, max) {
                    let k = out.count;
                    let q = Sample {
                        constellation: r.constellation,
                        svid: r.svid,
                        band: r.band,
                        time: time,
                        correction: x,
                    };
                    out.samples[k] = q;
                    out.count = k + 1;
                }
            }
        }
    }
    out
}
