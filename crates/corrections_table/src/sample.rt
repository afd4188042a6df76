// A sample of a correction, and the table's rows, order and soundness.
ghost use Rattle.std.specs.Prelude.{◌≡◌, ◌&&◌, ◌||◌, ◌≤◌, ◌<◌, length, get_or, ltb, eqb};
ghost use Rattle.corrections_table.specs.Table.{blank, capacity, ranged, rows, sound_table, stands_before, table_of, time_before};
ghost use Rattle.corrections_table.specs.Lent.{columns_before, columns_now};

use numeric::order::{before, pattern};
use numeric::real::in_range;
use signal::signal::signal_of;

// A correction of one signal at one time.
#[derive(Clone, Copy)]
pub struct Sample {
    pub constellation: u8,
    pub svid: u16,
    pub band: u32,
    pub time: f64,
    pub correction: f64,
}

// Checks that the time t is strictly before u in total_order. Where one number is below the other (5.10 a, b), they are compared as they are.
pub fn is_earlier(t: f64, u: f64) -> bool
    ensures { result ≡ time_before t u }
{
    if u < t {
        return false;
    }
    if t < u {
        return true;
    }
    !before(pattern(u), pattern(t))
}

// Returns how many samples the columns have room for.
pub fn capacity_of(cs: &[u8], vs: &[u16], bs: &[u32], ts: &[f64], xs: &[f64]) -> usize
    ensures { result ≡ capacity (columns_before cs vs bs ts xs) }
{
    2048usize.min(
        cs.len()
            .min(vs.len().min(bs.len().min(ts.len().min(xs.len())))),
    )
}

// Reads the row at i.
pub fn sample_at(cs: &[u8], vs: &[u16], bs: &[u32], ts: &[f64], xs: &[f64], i: usize) -> Sample
    requires { i < length (rows (columns_now cs vs bs ts xs)) }
    ensures { result ≡ get_or (rows (columns_before cs vs bs ts xs)) i blank }
{
    Sample {
        constellation: cs[i],
        svid: vs[i],
        band: bs[i],
        time: ts[i],
        correction: xs[i],
    }
}

// Checks that a sample of the signal s at the time t precedes one of the signal h at the time u.
pub fn is_below(s: u64, t: f64, h: u64, u: f64) -> bool
    ensures { result ≡ (ltb s h || (eqb s h && time_before t u)) }
{
    if s != h {
        return s < h;
    }
    is_earlier(t, u)
}

// Checks that a precedes b in the table's order.
pub fn precedes(a: Sample, b: Sample) -> bool
    ensures { result ≡ stands_before a b }
{
    let g = signal_of(a.constellation, a.svid, a.band);
    let h = signal_of(b.constellation, b.svid, b.band);
    is_below(g, a.time, h, b.time)
}

// Checks that time and correction are in range.
pub fn is_ranged(s: Sample) -> bool
    ensures { result ≡ ranged s }
{
    in_range(s.time) & in_range(s.correction)
}

// Checks rule 4 for the first n samples, in one pass.
pub fn is_sound(cs: &[u8], vs: &[u16], bs: &[u32], ts: &[f64], xs: &[f64], n: usize) -> bool
    requires { n ≤ length (rows (columns_now cs vs bs ts xs)) }
    ensures { result ≡ sound_table (table_of n (columns_before cs vs bs ts xs)) }
{
    if n == 0 {
        return true;
    }
    let first = sample_at(cs, vs, bs, ts, xs, 0);
    if !is_ranged(first) {
        return false;
    }
    let mut signal = signal_of(first.constellation, first.svid, first.band);
    let mut time = first.time;
    for i in 1..n {
        let a = sample_at(cs, vs, bs, ts, xs, i);
        if !is_ranged(a) {
            return false;
        }
        let s = signal_of(a.constellation, a.svid, a.band);
        if is_below(s, a.time, signal, time) {
            return false;
        }
        signal = s;
        time = a.time;
    }
    true
}
