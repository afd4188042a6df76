// How much each measurement counts in the next pass, by how far it lies off the fit.
ghost use Rattle.std.specs.Prelude.{◌≡◌, ◌+◌, ◌-◌, ◌/◌, ◌<◌, length};
ghost use Rattle.lists.specs.Memory.{lent};
ghost use Rattle.track_pass.specs.Input.{measured_in};
ghost use Rattle.track_smooth.specs.Track.{huber_of, anchor_scale, link_scale};
ghost use Rattle.track_smooth.specs.Steps.{Numbers, point_in, Limit, point_scale, Weighable, WeighedBy};

use numeric::order::pattern;
use numeric::real::max;
use numeric::vec3::Vec3;
use root::sqrt::sqrt;
use track_pass::measured::Measured;

// Computes the scale of a residual at z sigmas.
fn huber(h: f64, z: f64) -> f64
    ensures { result ≡ huber_of h z }
{
    if z <= h {
        return 1.0;
    }
    h / max(z, 1e-12)
}

// Computes a bound for the square of a distance: up to it the distance is within the threshold h.
pub(crate) fn limit(h: f64) -> Option<f64>
    ensures { Limit h result }
{
    let c = h * h;
    let z = sqrt(c);
    if (0.0 < h) & ((0.0 < c) & ((c < 1.0 / 0.0) & (z <= h))) {
        return Some(c);
    }
    None
}

// Reads x, y, z of the fit from place i on.
fn point(r: &[u64], i: usize) -> Vec3
    requires { (i + 2 < length r.now) × Numbers r.now }
    ensures { result ≡ point_in r.now i }
{
    let x = f64::from_bits(r[i]);
    let y = f64::from_bits(r[i + 1]);
    let z = f64::from_bits(r[i + 2]);
    Vec3 { x: x, y: y, z: z }
}

// Computes the scale of a measurement whose floats start at place a and which the fit has at f. Most lie within the limit c of h, where there is one, and need no root.
fn scale(f: Vec3, value: &[f64], sigma: &[f64], a: usize, h: f64, c: Option<f64>) -> f64
    requires { (a + 2 < length value.now) × (a + 2 < length sigma.now) × Limit h c }
    ensures { result ≡ point_scale h f value.now sigma.now a }
{
    let x = (f.x - value[a]) / sigma[a];
    let y = (f.y - value[a + 1]) / sigma[a + 1];
    let z = (f.z - value[a + 2]) / sigma[a + 2];
    let q = x * x + y * y + z * z;
    if let Some(most) = c {
        if (0.0 < q) & (q <= most) {
            return 1.0;
        }
    }
    huber(h, sqrt(q))
}

// Weighs the anchors by the fit in r.
pub(crate) fn weigh_anchors(
    w: &mut [u64],
    from: usize,
    anchors: Measured<'_>,
    h: f64,
    c: Option<f64>,
    r: &[u64],
)
    requires { Weighable (measured_in anchors) (length r.now / 3) h c from w.old r.now }
    ensures { WeighedBy anchor_scale (measured_in anchors.entry) h r from (lent w) }
{
    for j in 0..anchors.count {
        let i = anchors.epoch[j] * 3;
        let f = point(r, i);
        w[from + j] = pattern(scale(f, anchors.value, anchors.sigma, j * 3, h, c));
    }
}

// Weighs the links by the fit in r. It is apart from `weigh_anchors`, whose bound of an epoch and residual differ: only the walk is alike.
pub(crate) fn weigh_links(
    w: &mut [u64],
    from: usize,
    links: Measured<'_>,
    h: f64,
    c: Option<f64>,
    r: &[u64],
)
    requires { Weighable (measured_in links) (length r.now / 3 - 1) h c from w.old r.now }
    ensures { WeighedBy link_scale (measured_in links.entry) h r from (lent w) }
{
    for j in 0..links.count {
        let i = links.epoch[j] * 3;
        let f = point(r, i);
        let g = point(r, i + 3);
        w[from + j] = pattern(scale(g.sub(f), links.value, links.sigma, j * 3, h, c));
    }
}
