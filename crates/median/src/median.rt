// The element at place len/2 of patterns sorted by total_order. It is found without sorting: the patterns are split by the cases of the clause, and only
// the part that has the place is searched further. They are split by sign, then into numbers, infinities and NaNs, and then by a pivot of the list: those
// below it, equal to it and above it. Among at most 16 numbers, the four lowest or the four highest are found in one pass.
ghost use Rattle.std.specs.Prelude.{◌≡◌, [], ◌∷◌, ◌-◌, ◌≤◌, ◌<◌, min, max, get_or, take, length};
ghost use Rattle.lists.specs.Memory.{lent};
ghost use Rattle.median.specs.Sorted.{median_of, occurrences};
ghost use Rattle.median.specs.Steps.{pattern_at, number_at, lows, highs, of_sign, Front, Room, Among, AmongFour, FoundBy, OneTo64};

// Returns one of the first n numbers of k: the median of the first, the middle and the last of them.
fn pivot(k: &[u64; 64], n: usize) -> u64
    requires { (0 < n) × (n ≤ 64) × (length k.now ≡ 64) }
    ensures { 1 ≤ occurrences result (take n k.now) }
{
    let a = k[0];
    let b = k[n / 2];
    let c = k[n - 1];
    let low = a.min(b);
    let high = a.max(b);
    low.max(high.min(c))
}

// Counts those of the first n numbers of k that are below p.
fn count_low(k: &[u64; 64], n: usize, p: u64) -> usize
    requires { Room n k.now }
    ensures { result ≡ length (lows p (take n k.now)) }
{
    let mut w = 0usize;
    for j in 0..n {
        if k[j] < p {
            w += 1;
        }
    }
    w
}

// Moves those of the first n numbers of k that are below p to the front, and returns their count.
fn keep_low(k: &mut [u64; 64], n: usize, p: u64) -> usize
    requires { Room n k.old }
    ensures { Front (lows p (take n k.old)) result k.new }
{
    let mut w = 0usize;
    for j in 0..n {
        let y = k[j];
        k[w] = y;
        if y < p {
            w += 1;
        }
    }
    w
}

// Moves those of the first n numbers of k that are above p to the front, and returns their count. Apart from `keep_low`: the contract of one function over a
// closure would speak of the closure's calls, where these speak of `lows p` and `highs p`.
fn keep_high(k: &mut [u64; 64], n: usize, p: u64) -> usize
    requires { Room n k.old }
    ensures { Front (highs p (take n k.old)) result k.new }
{
    let mut w = 0usize;
    for j in 0..n {
        let y = k[j];
        k[w] = y;
        if p < y {
            w += 1;
        }
    }
    w
}

// Returns the number at place m of four.
fn one_of(a: u64, b: u64, c: u64, d: u64, m: usize) -> u64
    requires { m < 4 }
    ensures { result ≡ get_or (a ∷ (b ∷ (c ∷ (d ∷ [])))) m 0 }
{
    if m < 2 {
        return if m < 1 { a } else { b };
    }
    if m < 3 { c } else { d }
}

// Returns the number at place m, one of the four lowest, of the first n patterns of k, whose signs are clear. a, b, c, d are the four lowest so far, in
// ascending order, filled up with the highest such pattern: no branch depends on the numbers.
fn of_lowest(k: &[u64; 64], n: usize, m: usize) -> u64
    requires { AmongFour m n k.now }
    ensures { result ≡ number_at m (take n k.now) }
{
    let mut a = 0x7FFF_FFFF_FFFF_FFFFu64;
    let mut b = 0x7FFF_FFFF_FFFF_FFFFu64;
    let mut c = 0x7FFF_FFFF_FFFF_FFFFu64;
    let mut d = 0x7FFF_FFFF_FFFF_FFFFu64;
    for i in 0..n {
        let x = k[n - i - 1];
        d = c.max(d.min(x));
        c = b.max(c.min(x));
        b = a.max(b.min(x));
        a = a.min(x);
    }
    one_of(a, b, c, d, m)
}

// Returns the number m places below the highest, one of the four highest. a, b, c, d are the four highest so far, filled up with 0.
fn of_highest(k: &[u64; 64], n: usize, m: usize) -> u64
    requires { AmongFour m n k.now }
    ensures { result ≡ number_at (n - 1 - m) (take n k.now) }
{
    let mut a = 0u64;
    let mut b = 0u64;
    let mut c = 0u64;
    let mut d = 0u64;
    for i in 0..n {
        let x = k[n - i - 1];
        d = d.max(c.min(x));
        c = c.max(b.min(x));
        b = b.max(a.min(x));
        a = a.max(x);
    }
    one_of(a, b, c, d, m)
}

// Returns the number at place m of the first n numbers of k in ascending order, and overwrites k.
// For patterns whose signs are clear this is the order of magnitudes, since the exponent field is above the digits; for NaNs it is the order of their digits:
// the first tells signaling from quiet, the others are the payload.
fn select(k: &mut [u64; 64], n: usize, m: usize) -> u64
    requires { Among m n k.old }
    ensures { FoundBy number_at m n (lent k) result }
{
    let mut len = n;
    let mut at = m;
    loop {
        if len <= 16 {
            if at < 4 {
                return of_lowest(k, len, at);
            }
            let above = len - 1 - at;
            if above < 4 {
                return of_highest(k, len, above);
            }
        }
        let p = pivot(k, len);
        let less = count_low(k, len, p);
        if at < less {
            len = keep_low(k, len, p);
        } else {
            let more = keep_high(k, len, p);
            let upto = len - more;
            if at < upto {
                return p;
            }
            len = more;
            at -= upto;
        }
    }
}

// Writes the patterns of one sign, without it, to the front of k, and returns their count.
fn part(patterns: &[u64], negative: bool, k: &mut [u64; 64]) -> usize
    requires { Room (length patterns.now) k.old }
    ensures { Front (of_sign negative patterns.now) result k.new }
{
    let n = patterns.len();
    let mut w = 0usize;
    for j in 0..n {
        let x = patterns[j];
        k[w] = x % 0x8000_0000_0000_0000;
        let s = 0x8000_0000_0000_0000 <= x;
        if s == negative {
            w += 1;
        }
    }
    w
}

// Returns the pattern at place m, in total_order, of the first n patterns of k, whose signs are clear, and overwrites k.
pub(crate) fn of_like_sign(k: &mut [u64; 64], n: usize, m: usize) -> u64
    requires { Among m n k.old }
    ensures { FoundBy pattern_at m n (lent k) result }
{
    let numbers = count_low(k, n, 0x7FF0_0000_0000_0000);
    // numbers alone, zeros among them: by magnitude (a, b, c 3)
    if numbers == n {
        return select(k, n, m);
    }
    // numbers come before infinities (a) and before NaNs (d 2)
    if m < numbers {
        let count = keep_low(k, n, 0x7FF0_0000_0000_0000);
        return select(k, count, m);
    }
    // infinities are one datum (c 3), and come before NaNs (d 2)
    let nans = keep_high(k, n, 0x7FF0_0000_0000_0000);
    let upto = n - nans;
    if m < upto {
        return 0x7FF0_0000_0000_0000;
    }
    // NaNs: signaling before quiet (d 3 ii), then by payload (d 3 iii)
    select(k, nans, m - upto)
}

// Returns the median of one to 64 patterns, and overwrites k.
pub(crate) fn middle(patterns: &[u64], k: &mut [u64; 64]) -> u64
    requires { (0 < length patterns.now) × (length patterns.now ≤ 64) × (length k.old ≡ 64) }
    ensures { (result ≡ median_of patterns.now) × (length k.new ≡ 64) }
{
    let n = patterns.len();
    let at = n / 2;
    // unlike signs: every negative pattern comes before every other (a, c 1, d 1, d 2, d 3 i)
    let positive = part(patterns, false, k);
    let negative = n - positive;
    if negative <= at {
        return of_like_sign(k, positive, at - negative);
    }
    // negative patterns come in the reverse of the order without the sign
    let count = part(patterns, true, k);
    let found = of_like_sign(k, count, count - 1 - at);
    0x8000_0000_0000_0000 + found
}

// Returns the median of one to 64 patterns.
fn median_of(patterns: &[u64]) -> u64
    requires { OneTo64 patterns.now }
    ensures { result ≡ median_of patterns.now }
{
    let mut k = [0u64; 64];
    middle(patterns, &mut k)
}

// Returns the median of the patterns. Of more than 64 only the first 64 count; no caller here has more.
pub fn median(patterns: &[u64]) -> u64
    ensures { result ≡ median_of (take 64 patterns.now) }
{
    let n = patterns.len();
    if n == 0 {
        return 0;
    }
    if n <= 64 {
        return median_of(patterns);
    }
    median_of(&patterns[..64])
}
