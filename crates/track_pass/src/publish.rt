// The fit of a pass: its unknowns, counted from the origin.
ghost use Rattle.std.specs.Prelude.{◌≡◌, true};
ghost use Rattle.std.specs.Float.Ieee.Scale.{finite};
ghost use Rattle.exact.specs.Float.{◌⊕◌, bits};
ghost use Rattle.numeric.specs.Order.{pattern_of};
ghost use Rattle.numeric.specs.Real.{in_range};
ghost use Rattle.track_pass.specs.Steps.{Publishable, Published};

use numeric::vec3::Vec3;

// Adds the origin o to an unknown.
fn place(b: u64, o: f64) -> u64
    requires { (finite (bits b) ≡ true) × (in_range o ≡ true) }
    ensures { result ≡ pattern_of (bits b ⊕ o) }
{
    f64::to_bits(f64::from_bits(b) + o)
}

// Puts the unknowns of n rows, with the origin added, into the result.
pub(crate) fn publish(w: &[u64], n: usize, origin: Vec3, r: &mut [u64])
    requires { Publishable w.now n origin.x origin.y origin.z r.old }
    ensures { Published w.now n origin.x origin.y origin.z r.old r.new }
{
    for k in 0..n {
        let x = place(w[k * 9 + 6], origin.x);
        let y = place(w[k * 9 + 7], origin.y);
        let z = place(w[k * 9 + 8], origin.z);
        r[k * 3] = x;
        r[k * 3 + 1] = y;
        r[k * 3 + 2] = z;
    }
}
