// A float by its 64-bit pattern: the float, and its range.
ghost use Rattle.std.specs.Prelude.{◌≡◌, false, ◌^◌, ltb};
ghost use Rattle.exact.specs.Float.{bits};
ghost use Rattle.numeric.specs.Order.{is_nan_pattern};
ghost use Rattle.numeric.specs.Real.{in_range};

// Returns the float of a pattern that is no NaN's.
pub fn number(pattern: u64) -> f64
    requires { is_nan_pattern pattern ≡ false }
    ensures { result ≡ bits pattern }
{
    f64::from_bits(pattern)
}

// Returns a sum whose top bit is set exactly where the float of a pattern is out of range: there the magnitude is above that of 1e9.
pub(crate) fn range_sum(pattern: u64) -> u64
    ensures { ltb result (2 ^ 63) ≡ in_range (bits pattern) }
{
    pattern % 0x8000_0000_0000_0000 + 0x3E32_329A_FFFF_FFFF
}
