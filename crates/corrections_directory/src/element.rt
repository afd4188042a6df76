// A float as a column holds it: as it is, or as its 64-bit pattern.
ghost use Rattle.std.specs.Prelude.{◌≡◌, ℕ, true, false, ◌≤◌, ◌<◌, Bool, List, Float, length, get_or, take, refl};
ghost use Rattle.std.specs.Float.{nan};
ghost use Rattle.std.proofs.Math.ListN.{length-map};
ghost use Rattle.std.proofs.lemmas.List.{get_or-map, get_or_default};
ghost use Rattle.exact.specs.Float.{bits};
ghost use Rattle.numeric.specs.Order.{is_nan_pattern};
ghost use Rattle.lists.specs.Walk.{every};
ghost use Rattle.corrections_directory.specs.Directory.{floats, in_reach, reading_rows};
ghost use Rattle.corrections_directory.specs.Steps.{Numbers};

use crate::patterns::{number, range_sum};
use numeric::order::float;
use numeric::real::in_range;

pub trait Element: Copy {
    // The floats of a column.
    ghost floats: { List Self → List Float };

    // The float of an element.
    ghost float: { Self → Float };

    // Whether an element is a pattern of a NaN, which cannot be read at once.
    ghost is_nan: { Self → Bool };

    // Returns the float.
    fn value(self) -> f64
        ensures { result ≡ float self };

    // Returns the float of an element that is no NaN's pattern.
    fn number(self) -> f64
        requires { is_nan self ≡ false }
        ensures { result ≡ float self };

    // Tests whether the first count times and corrections are in range. Several are tested at once.
    fn all_in_reach(times: &[Self], metres: &[Self], count: usize) -> bool
        requires { count ≤ length (reading_rows (floats times.now) (floats metres.now)) }
        ensures reach { result ≡ every in_reach (take count (reading_rows (floats times.now) (floats metres.now))) }
        ensures numbers { result ≡ true → Numbers is_nan times.now count };

    ghost floats_length: { (l : List Self) → length (floats l) ≡ length l };

    ghost floats_at: { (l : List Self) (i : ℕ) (d : Self) → i < length l → get_or (floats l) i nan ≡ float (get_or l i d) };
}

impl Element for u64 {
    ghost floats = { floats };

    ghost float = { bits };

    ghost is_nan = { is_nan_pattern };

    ghost floats_length = { λ l. length-map l bits };

    ghost floats_at = { λ l i d h. get_or-map bits l i d nan h };

    fn value(self) -> f64 {
        float(self)
    }

    fn number(self) -> f64 {
        number(self)
    }

    // Goes by the top bit of all their sums together.
    fn all_in_reach(times: &[u64], metres: &[u64], count: usize) -> bool {
        let mut sums: u64 = 0;
        for i in 0..count {
            sums = sums | range_sum(times[i]) | range_sum(metres[i]);
        }
        sums < 0x8000_0000_0000_0000
    }
}

impl Element for f64 {
    ghost floats = { λ l. l };

    ghost float = { λ x. x };

    ghost is_nan = { λ x. false };

    ghost floats_length = { λ l. refl };

    ghost floats_at = { λ l i d h. get_or_default l i nan d h };

    fn value(self) -> f64 {
        self
    }

    fn number(self) -> f64 {
        self
    }

    // Goes on past one that is out of range.
    fn all_in_reach(times: &[f64], metres: &[f64], count: usize) -> bool {
        let mut all = true;
        for i in 0..count {
            all = all & in_range(times[i]) & in_range(metres[i]);
        }
        all
    }
}
