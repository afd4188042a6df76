// The square root of an f64, correctly rounded, with integers of 64 bits.
ghost use Rattle.std.specs.Prelude.{◌≡◌, ◌+◌, ◌-◌, ◌*◌, ◌/◌, ◌%◌, ◌^◌, ◌<◌, ◌≤◌, true, false};
ghost use Rattle.std.specs.Float.Ieee as Ieee;
ghost use Rattle.std.specs.Float.{binary64};
ghost use Rattle.std.specs.Float.Ieee.Exact.{HasValue};
ghost use Rattle.root.specs.Root.{NearestWhole, root_of};
ghost use Rattle.root.specs.Steps.{IsParts};

use root_table::place_of;
use std::num::{wrapping_add_u64, wrapping_sub_u64};

// x = m * 2 ^ y / 2 ^ 1126, with m of 53 binary digits.
#[derive(Clone, Copy)]
struct Parts {
    m: u64,
    y: u64,
}

// The digits and the exponent of the positive finite float whose bits are b.
fn split(b: u64) -> Parts
    requires { (0 < b) × (b < 0x7ff0_0000_0000_0000) }
    ensures { IsParts (Ieee.of_bits binary64 b) result.m result.y }
{
    if b < 0x0010_0000_0000_0000 {
        let z = u64::leading_zeros(b);
        Parts {
            m: b << (z - 11),
            y: (63 - z) as u64,
        }
    } else {
        Parts {
            m: b % 0x0010_0000_0000_0000 + 0x0010_0000_0000_0000,
            y: b / 0x0010_0000_0000_0000 + 51,
        }
    }
}

// The whole number nearest to the root of w * 2 ^ 52, digit by digit. At the loop's head s is the root's digits so far and
// rem what is left over them.
fn slow(w: u64) -> u64
    requires { (2 ^ 52 ≤ w) × (w < 2 ^ 54) }
    ensures { NearestWhole (w * 2 ^ 52) result }
{
    let mut s: u64 = 0;
    let mut rem: u64 = 0;
    let mut rest: u64 = w;
    for i in 0..53u64 {
        rem = rem * 4 + rest / 0x0010_0000_0000_0000;
        rest = rest % 0x0010_0000_0000_0000 * 4;
        if rem > s * 4 {
            rem = rem - s * 4 - 1;
            s = s * 2 + 1;
        } else {
            s = s * 2;
        }
    }
    if rem > s { s + 1 } else { s }
}

// A guess of √f, for f = m * (1 + p) / 2 ^ 52, which is from 1 up and below 4. g comes near √f and k near 1 / (2 * √f), within 7
// parts in 10 ^ 7. h is g, cut to so few digits that f - h * h is exact. Nothing is proved of how near the guess is: `agrees`
// tests it.
fn guess(m: u64, p: u64) -> f64
    requires { (2 ^ 52 ≤ m) × (m < 2 ^ 53) × (p < 2) }
{
    let b = (1022 + p) * 0x0010_0000_0000_0000 + m;
    let f = f64::from_bits(b);
    let y = f64::from_bits(0x5fe3_ffff_2000_0000 - b / 2);
    let g0 = f * y;
    let t0 = 1.68191391 - g0 * (0.703952009 * y);
    let g1 = g0 * t0;
    let k1 = 0.5 * y * t0;
    let t1 = 1.5 - g1 * k1;
    let g = g1 * t1;
    let k = k1 * t1;
    let h = g + 134217728.0 - 134217728.0;
    let r = f - h * h;
    h + r / (2.0 * h + r * k)
}

// Whether the digits q of n, its lowest 52 and a leading one, are seen to be the whole number nearest to the root of w * 2 ^ 52: true only where they are, and
// false where they are but the root lies within 1 part in 1000 of a border. With q = a * 2 ^ 21 + b the square of q + 1/2 is w * 2 ^ 52 and from x to x + 2 times
// 2 ^ 42 more. That must be above 0 and below 2 * q. A negative x wraps to a huge one.
fn agrees(w: u64, n: u64) -> bool
    requires { (2 ^ 52 ≤ w) × (w < 2 ^ 54) }
    ensures { result ≡ true → NearestWhole (w * 2 ^ 52) (n % 2 ^ 52 + 2 ^ 52) }
{
    let a = n / 0x0020_0000 % 0x8000_0000 + 0x8000_0000;
    let b = n % 0x0020_0000;
    let part = a * (b * 2 + 1) / 0x0020_0000;
    let over = wrapping_sub_u64(a * a, w * 1024);
    let x = wrapping_add_u64(over, part);
    x < a / 0x0010_0000 - 1
}

// The whole number nearest to the root of w * 2 ^ 52: g or a neighbour of it, where the test says so.
fn settled(w: u64, g: u64) -> u64
    requires { (2 ^ 52 ≤ w) × (w < 2 ^ 54) × (2 ^ 52 ≤ g) × (g < 2 ^ 53) }
    ensures { NearestWhole (w * 2 ^ 52) result }
{
    if agrees(w, g) {
        return g;
    }
    if agrees(w, g + 1) {
        return (g + 1) % 0x0010_0000_0000_0000 + 0x0010_0000_0000_0000;
    }
    if agrees(w, g - 1) {
        return (g - 1) % 0x0010_0000_0000_0000 + 0x0010_0000_0000_0000;
    }
    slow(w)
}

// The whole number nearest to the root of m * (1 + p) * 2 ^ 52.
fn nearest(m: u64, p: u64) -> u64
    requires { (2 ^ 52 ≤ m) × (m < 2 ^ 53) × (p < 2) }
    ensures { NearestWhole (m * (1 + p) * 2 ^ 52) result }
{
    let w = m * (1 + p);
    let s = guess(m, p);
    if s < 2.0 {
        return settled(
            w,
            f64::to_bits(s) % 0x0010_0000_0000_0000 + 0x0010_0000_0000_0000,
        );
    }
    slow(w)
}

// The root of the positive finite float whose bits are b.
fn positive(b: u64) -> f64
    requires { (0 < b) × (b < 0x7ff0_0000_0000_0000) }
    ensures { result ≡ root_of (Ieee.of_bits binary64 b) }
{
    let p = split(b);
    let m = p.m;
    let y = p.y;
    let q = nearest(m, y % 2);
    f64::from_bits((y / 2 + 485) * 0x0010_0000_0000_0000 + q)
}

// The square root of x, whatever float x is.
fn of_any(x: f64) -> f64
    ensures { result ≡ root_of x }
{
    if x != x {
        return x;
    }
    let b = f64::to_bits(x);
    if b >= 0x7ff0_0000_0000_0000 {
        if b == 0x7ff0_0000_0000_0000 {
            return x;
        }
        if b == 0x8000_0000_0000_0000 {
            return x;
        }
        return 0.0 / 0.0;
    }
    if b == 0 {
        return x;
    }
    positive(b)
}

// A guess of the root of the float from 1/2 up and below 2 whose digits are those of b, and whose exponent is odd where that of b is. With the table's place for the
// range of its digits and u = (f - square) / (2 * square) the root is root * √(1 + 2 * u), and that is root + root * u * (1 - u / 2 + u ^ 2 / 2 - 5 * u ^ 3 / 8 + 7 * u ^ 4 / 8 - ..).
// The factors are those of the polynomial nearest to the whole sum for |u| up to 2 ^ -10. Nothing is proved of how near the guess is: `agrees` tests it.
fn from_table(b: u64) -> f64 {
    let p = place_of(b / 0x0000_1000_0000_0000 % 512);
    let f = f64::from_bits(b % 0x0020_0000_0000_0000 + 0x3fe0_0000_0000_0000);
    let u = (f - p.square) * p.half;
    let uu = u * u;
    let t = p.root * u;
    let first = t * (1.0 - 0.49999999999974 * u);
    let second = t * uu * (0.49999999999945 - 0.6250013 * u + 0.8750023 * uu);
    p.root + (first + second)
}

// The digits of the root of the positive normal number whose bits are b are those of the root of w * 2 ^ 52. w is the number's digits, doubled where its
// exponent is even.
fn radicand(b: u64) -> u64
    ensures { result ≡ (b % 2 ^ 52 + 2 ^ 52) * (1 + (b / 2 ^ 52 + 51) % 2) }
{
    let v = b % 0x0020_0000_0000_0000;
    if b / 0x0010_0000_0000_0000 % 2 == 1 {
        v
    } else {
        v * 2 + 0x0020_0000_0000_0000
    }
}

// The root of the positive normal number whose bits are b. Its digits are those of the guess.
fn normal(b: u64) -> f64
    requires { (2 ^ 52 ≤ b) × (b < 0x7ff0_0000_0000_0000) }
    ensures { result ≡ root_of (Ieee.of_bits binary64 b) }
{
    let g = from_table(b);
    if g != g {
        return positive(b);
    }
    let n = f64::to_bits(g);
    let w = radicand(b);
    if agrees(w, n) {
        let e = (b / 0x0010_0000_0000_0000 + 1023) / 2;
        return f64::from_bits(e * 0x0010_0000_0000_0000 + n % 0x0010_0000_0000_0000);
    }
    positive(b)
}

// Whether s is seen to be the root of x: true only where it is and x is a positive normal number.
pub(crate) fn is_root(x: f64, s: f64) -> bool
    ensures { result ≡ true → s ≡ root_of x }
{
    if x >= 2.2250738585072014e-308 {
        if x >= 1.0 / 0.0 {
            return false;
        }
        if s != s {
            return false;
        }
        let b = f64::to_bits(x);
        let n = f64::to_bits(s);
        if n / 0x0010_0000_0000_0000 != (b / 0x0010_0000_0000_0000 + 1023) / 2 {
            return false;
        }
        let w = radicand(b);
        return agrees(w, n);
    }
    false
}

// The square root of x, correctly rounded. A NaN, a zero and what is negative are not from the least normal number up.
pub fn sqrt(x: f64) -> f64
    ensures { result ≡ root_of x }
{
    if x >= 2.2250738585072014e-308 {
        if x >= 1.0 / 0.0 {
            return x;
        }
        return normal(f64::to_bits(x));
    }
    of_any(x)
}

// The square root of x, correctly rounded, quicker where r is the root of a float within 2 ^ -18 of x. h is r, cut to so few digits that d is exact. With
// t = d / (2 * h) and z = d / (4 * h * h) the guess is h + t * (1 - z + 2 * z ^ 2), the first terms of the sum in `from_table`.
pub fn sqrt_beside(x: f64, r: f64) -> f64
    ensures { result ≡ root_of x }
{
    let c = 134217729.0 * r;
    let h = c - (c - r);
    let k = 0.5 / h;
    let d = x - h * h;
    let t = d * k;
    let z = d * (k * k);
    let tz = t * z;
    let s = h + (t - tz + tz * (z + z));
    if is_root(x, s) {
        return s;
    }
    sqrt(x)
}
