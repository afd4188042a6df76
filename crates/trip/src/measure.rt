// How far a displacement goes, in whole millimetres.
ghost use Rattle.std.specs.Prelude.{ℕ, Some, ◌≡◌, true, ◌≤◌, ◌<◌, ◌*◌, ◌/◌, ◌^◌};
ghost use Rattle.std.specs.Float.Ieee.{le};
ghost use Rattle.exact.specs.Float.{+0, whole, bits};
ghost use Rattle.root.specs.Root.{root_of};
ghost use Rattle.numeric.specs.Vec3.{norm};
ghost use Rattle.trip.specs.Measure as spec;
ghost use Rattle.trip.specs.Steps.{way_of};

use numeric::vec3::Vec3;
use numeric::whole::whole_times;
use root::sqrt::sqrt;

// Returns a length's whole millimetres. The product of the length and 1,000 as doubles would be rounded up across a whole millimetre for some lengths.
pub(crate) fn millimetres(length: f64) -> u64
    requires { (le +0 length ≡ true) × (le length (whole 1000) ≡ true) }
    ensures { result ≡ spec.millimetres length }
{
    whole_times(1000, length)
}

// Guesses how many units of 2 ^ -16 the root of the float s has whose bits are b. With x near 0.9 / √s, f = s * x and w = f * x the root is f / √w, and a polynomial
// of degree 5 has 1 / √w to 31 binary digits where w lies from 0.75 to 0.84375, as it does here. At 2 ^ 36 the last digit of a float is worth a unit. Nothing is
// proved of how near the guess is: `is_certain` tests it.
fn guess(b: u64) -> u64
    requires { b < 0x4130_0000_0000_0000 }
    ensures { result < 2 ^ 27 }
{
    let x = f64::from_bits(0x5fe3_ffff_2000_0000 - b / 2);
    let f = f64::from_bits(b) * x;
    let w = f * x;
    let v = w * w;
    let p = 3.035199619873433 - 6.357859923470323 * w;
    let q = 9.585537262717114 - 8.59927932737381 * w;
    let r = 4.198659902876034 - 0.8623096337572255 * w;
    let u = 68719476735.99999237060546875 + (f * p + f * v * (q + v * r));
    if u != u {
        return 0;
    }
    f64::to_bits(u) % 0x0800_0000
}

// Checks that the root of the float whose bits are b is certain to have the millimetres of a units of 2 ^ -16: the root lies from a units to a + 1, and no whole
// millimetre lies above the first and up to the second.
fn is_certain(b: u64, a: u64) -> bool
    requires { (0x3EB0_0000_0000_0000 ≤ b) × (b < 0x412E_8480_0000_0000) × (a < 2 ^ 27) }
    ensures { result ≡ true → a * 1000 / 65536 ≡ way_of (root_of (bits b)) }
{
    let e = b / 0x0010_0000_0000_0000;
    let m = b % 0x0010_0000_0000_0000 + 0x0010_0000_0000_0000;
    let n = m >> (1043 - e);
    let square = a * a;
    (square <= n) & (n <= square + 2 * a) & (a * 1000 % 65536 < 64536)
}

// Returns the way of the length whose square is given where it is seen without the root. It and `by_root` are short enough that a compiler writes them out where
// they are called, which is once on the path of each entry point.
fn seen(square: f64) -> Option<u64>
    ensures { (way : ℕ) → result ≡ Some way → way ≡ way_of (root_of square) }
{
    if 9.5367431640625e-7 < square {
        if square < 1000000.0 {
            let b = f64::to_bits(square);
            let a = guess(b);
            if is_certain(b, a) {
                return Some(a * 1000 / 65536);
            }
        }
    }
    None
}

// Returns it by the root: the whole millimetres of the length, or 1,000,001 above 1,000 m.
pub(crate) fn by_root(square: f64) -> u64
    ensures { result ≡ way_of (root_of square) }
{
    let length = sqrt(square);
    if length <= 1000.0 {
        return millimetres(length);
    }
    1000001
}

// Returns the way of the length whose square is given.
pub fn way_of_square(square: f64) -> u64
    ensures { result ≡ way_of (root_of square) }
{
    match seen(square) {
        Some(way) => way,
        None => by_root(square),
    }
}

// Returns the way of a displacement.
pub(crate) fn way_of(d: Vec3) -> u64
    ensures { result ≡ way_of (norm d) }
{
    way_of_square(d.x * d.x + d.y * d.y + d.z * d.z)
}
