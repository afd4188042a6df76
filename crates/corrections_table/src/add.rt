// Samples added to a table, each after those that it does not precede.
ghost use Rattle.std.specs.Prelude.{◌≡◌, [], ◌∷◌, ◌-◌, ◌≤◌, ◌<◌, length, take};
ghost use Rattle.lists.specs.Memory.{held, lent};
ghost use Rattle.lists.specs.Walk.{every};
ghost use Rattle.corrections_table.specs.Table.{ranged, table_of};
ghost use Rattle.corrections_table.specs.Add.{counted_samples};
ghost use Rattle.corrections_table.specs.Lent.{columns_before, columns_now};
ghost use Rattle.corrections_table.specs.Steps.{Inserts, RoomForAll, RoomForOne, SoundRows, opened, spot_of};

use crate::sample::{Sample, is_ranged, precedes, sample_at};
use numeric::refusal::Refusal;

// Up to 64 samples, in the order in which they arrive.
#[derive(Clone, Copy)]
pub struct Samples {
    pub count: usize,
    pub samples: [Sample; 64],
}

// Counts the samples at the front of a sound table that the sample s does not precede.
fn spot_of(cs: &[u8], vs: &[u16], bs: &[u32], ts: &[f64], xs: &[f64], n: usize, s: Sample) -> usize
    requires { SoundRows n (columns_now cs vs bs ts xs) }
    ensures { result ≡ spot_of s (table_of n (columns_before cs vs bs ts xs)) }
{
    for p in (0..n).rev() {
        let a = sample_at(cs, vs, bs, ts, xs, p);
        if !precedes(s, a) {
            return p + 1;
        }
    }
    0
}

// Inserts x at the place p of a column with n places in use, moving those from p on up by one. docs/DECISIONS.md has why `copy_within` does not.
fn open<T: Copy>(d: &mut [T], p: usize, n: usize, x: T)
    requires { (p ≤ n) × (n < length d.old) }
    ensures { d.new ≡ opened p (n - p) x d.old }
{
    for i in (p..n).rev() {
        d[i + 1] = d[i];
    }
    d[p] = x;
}

// Inserts the sample s into the n samples of a sound table that has room for it.
fn insert(
    cs: &mut [u8],
    vs: &mut [u16],
    bs: &mut [u32],
    ts: &mut [f64],
    xs: &mut [f64],
    n: usize,
    s: Sample,
)
    requires { RoomForOne n (columns_now (held cs) (held vs) (held bs) (held ts) (held xs)) }
    ensures { Inserts n 1 (s ∷ []) (lent cs) (lent vs) (lent bs) (lent ts) (lent xs) }
{
    let p = spot_of(cs, vs, bs, ts, xs, n, s);
    open(cs, p, n, s.constellation);
    open(vs, p, n, s.svid);
    open(bs, p, n, s.band);
    open(ts, p, n, s.time);
    open(xs, p, n, s.correction);
}

// Inserts the first m samples of new, one after the other, into the n samples of a sound table that has room for them all.
pub fn insert_all(
    cs: &mut [u8],
    vs: &mut [u16],
    bs: &mut [u32],
    ts: &mut [f64],
    xs: &mut [f64],
    n: usize,
    new: [Sample; 64],
    m: usize,
)
    requires { RoomForAll n new m (columns_now (held cs) (held vs) (held bs) (held ts) (held xs)) }
    ensures { Inserts n m (take m new) (lent cs) (lent vs) (lent bs) (lent ts) (lent xs) }
{
    for i in 0..m {
        let s = new[i];
        insert(cs, vs, bs, ts, xs, n + i, s);
    }
}

// Checks that every counted sample is in range (rule 4).
pub fn all_ranged(new: Samples) -> bool
    requires { new.count ≤ 64 }
    ensures { result ≡ every ranged (counted_samples new) }
{
    let m = new.count;
    for i in 0..m {
        let s = new.samples[i];
        if !is_ranged(s) {
            return false;
        }
    }
    true
}
