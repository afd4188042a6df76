// The equations of the three axes, put together in rows of nine.
ghost use Rattle.std.specs.Prelude.{◌≡◌, ◌+◌, ◌-◌, ◌*◌, ◌<◌, ◌≤◌, length};
ghost use Rattle.lists.specs.Memory.{lent};
ghost use Rattle.exact.specs.Float.{◌⊗◌, ◌⊘◌};
ghost use Rattle.track_tridiagonal.specs.Steps.{NumbersAt};
ghost use Rattle.track_pass.specs.Input.{measured_in};
ghost use Rattle.track_pass.specs.Steps.{AnchorAdded, LinkAdded, Addable, AddedBy, anchor_change, link_change};

use crate::measured::Measured;
use numeric::order::float;

// Adds an anchor to the row of one axis with its diagonal at `at`: its scale c, sigma s and place v from the origin. False where a NaN would be stored.
fn add_anchor(w: &mut [u64], at: usize, c: f64, s: f64, v: f64) -> bool
    requires { (at + 6 < length w.old) × NumbersAt w.old at (at + 6) (at + 6) }
    ensures { AnchorAdded w.old at (c ⊘ (s ⊗ s)) (c ⊘ (s ⊗ s) ⊗ v) result w.new }
{
    let a = c / (s * s);
    let d = f64::from_bits(w[at]) + a;
    let r = f64::from_bits(w[at + 6]) + a * v;
    if !((d == d) & (r == r)) {
        return false;
    }
    w[at] = f64::to_bits(d);
    w[at + 6] = f64::to_bits(r);
    true
}

// Adds a link to the row of one axis with its diagonal at `at` and to the next: its scale c, sigma s and change in position v. False where a NaN would be stored.
fn add_link(w: &mut [u64], at: usize, c: f64, s: f64, v: f64) -> bool
    requires { (at + 15 < length w.old) × NumbersAt w.old at (at + 3) (at + 6) × NumbersAt w.old (at + 9) (at + 9) (at + 15) }
    ensures { LinkAdded w.old at (c ⊘ (s ⊗ s)) (c ⊘ (s ⊗ s) ⊗ v) result w.new }
{
    let a = c / (s * s);
    let b = a * v;
    let d = f64::from_bits(w[at]) + a;
    let u = f64::from_bits(w[at + 3]) - a;
    let r = f64::from_bits(w[at + 6]) - b;
    let e = f64::from_bits(w[at + 9]) + a;
    let q = f64::from_bits(w[at + 15]) + b;
    if !((d == d) & ((u == u) & ((r == r) & ((e == e) & (q == q))))) {
        return false;
    }
    w[at] = f64::to_bits(d);
    w[at + 3] = f64::to_bits(u);
    w[at + 6] = f64::to_bits(r);
    w[at + 9] = f64::to_bits(e);
    w[at + 15] = f64::to_bits(q);
    true
}

// Adds the anchors, whose scales come after the n rows. False where a NaN would be stored.
pub(crate) fn add_anchors(w: &mut [u64], n: usize, anchors: Measured<'_>) -> bool
    requires { (0 < anchors.count) × Addable (measured_in anchors) n n (n * 9) w.old }
    ensures { AddedBy anchor_change (measured_in anchors.entry) n (n * 9) (lent w) result }
{
    let from = n * 9;
    let value = anchors.value;
    let sigma = anchors.sigma;
    let ox = value[0];
    let oy = value[1];
    let oz = value[2];
    for j in 0..anchors.count {
        let at = anchors.epoch[j] * 9;
        let y_at = at + 1;
        let z_at = at + 2;
        let a = j * 3;
        let c = float(w[from + j]);
        let x = add_anchor(&mut *w, at, c, sigma[a], value[a] - ox);
        let y = add_anchor(&mut *w, y_at, c, sigma[a + 1], value[a + 1] - oy);
        let z = add_anchor(&mut *w, z_at, c, sigma[a + 2], value[a + 2] - oz);
        if !(x & (y & z)) {
            return false;
        }
    }
    true
}

// Adds the links, whose scales stand `skip` places after the n rows. False where a NaN would be stored. It is apart from `add_anchors`, whose rows, bound of an epoch
// and values differ: only the walk is alike.
pub(crate) fn add_links(w: &mut [u64], n: usize, skip: usize, links: Measured<'_>) -> bool
    requires { Addable (measured_in links) (n - 1) n (n * 9 + skip) w.old }
    ensures { AddedBy link_change (measured_in links.entry) n (n * 9 + skip) (lent w) result }
{
    let from = n * 9 + skip;
    let value = links.value;
    let sigma = links.sigma;
    for j in 0..links.count {
        let at = links.epoch[j] * 9;
        let y_at = at + 1;
        let z_at = at + 2;
        let a = j * 3;
        let c = float(w[from + j]);
        let x = add_link(&mut *w, at, c, sigma[a], value[a]);
        let y = add_link(&mut *w, y_at, c, sigma[a + 1], value[a + 1]);
        let z = add_link(&mut *w, z_at, c, sigma[a + 2], value[a + 2]);
        if !(x & (y & z)) {
            return false;
        }
    }
    true
}
