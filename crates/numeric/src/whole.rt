// Whole parts of floats.
ghost use Rattle.std.specs.Prelude.{◌≡◌, true, ◌^◌, ◌≤◌};
ghost use Rattle.std.specs.Float.Ieee.{le, lt};
ghost use Rattle.exact.specs.Float.{+0, whole};
ghost use Rattle.numeric.specs.Whole.{whole_times};

// Returns the whole part of k * x, without rounding. A float above 0 is m * 2 ^ (e - 1075), with m of 53 binary digits, so that one below 2 ^ 53 is only
// shifted down. An e below 1012 leaves nothing of the 64 digits of k * m.
pub fn whole_times(k: u64, x: f64) -> u64
    requires { (k ≤ 2 ^ 11) × (le +0 x ≡ true) × (lt x (whole (2 ^ 53)) ≡ true) }
    ensures { result ≡ whole_times k x }
{
    if 0.0 < x {
        let b = f64::to_bits(x);
        let e = b / 0x0010_0000_0000_0000;
        if e < 1012 {
            return 0;
        }
        let m = b % 0x0010_0000_0000_0000 + 0x0010_0000_0000_0000;
        return (k * m) >> (1075 - e);
    }
    0
}
