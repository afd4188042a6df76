// Vectors of three floats.
ghost use Rattle.std.specs.Prelude.{◌≡◌, ◌+◌, ◌<◌, length};
ghost use Rattle.numeric.specs.Vec3 as spec;

use crate::order::pattern;
use crate::real::{in_range, is_finite};
use root::sqrt::{sqrt, sqrt_beside};

#[derive(Clone, Copy)]
pub struct Vec3 {
    pub x: f64,
    pub y: f64,
    pub z: f64,
}

impl Vec3 {
    // The vector of length 0.
    pub const ZERO: Vec3 = Vec3 {
        x: 0.0,
        y: 0.0,
        z: 0.0,
    };

    // Each component plus the other's.
    pub fn add(self, other: Vec3) -> Vec3
        ensures { result ≡ spec.add self other }
    {
        Vec3 {
            x: self.x + other.x,
            y: self.y + other.y,
            z: self.z + other.z,
        }
    }

    // Each component less the other's.
    pub fn sub(self, other: Vec3) -> Vec3
        ensures { result ≡ spec.sub self other }
    {
        Vec3 {
            x: self.x - other.x,
            y: self.y - other.y,
            z: self.z - other.z,
        }
    }

    // The length.
    pub fn norm(self) -> f64
        ensures { result ≡ spec.norm self }
    {
        sqrt(self.x * self.x + self.y * self.y + self.z * self.z)
    }

    // Whether each coordinate is finite and at most 1e9 in magnitude.
    pub fn is_in_range(self) -> bool
        ensures { result ≡ spec.vector_in_range self }
    {
        in_range(self.x) & in_range(self.y) & in_range(self.z)
    }

    // Whether each coordinate is finite.
    pub fn is_finite(self) -> bool
        ensures { result ≡ spec.vector_finite self }
    {
        is_finite(self.x) & is_finite(self.y) & is_finite(self.z)
    }

    // The patterns of the coordinates.
    pub fn patterns(self) -> [u64; 3]
        ensures { result ≡ spec.vector_patterns self }
    {
        let x = pattern(self.x);
        let y = pattern(self.y);
        let z = pattern(self.z);
        [x, y, z]
    }

    // The length, quicker where r is that of a vector nearly as long.
    pub(crate) fn norm_beside(self, r: f64) -> f64
        ensures { result ≡ spec.norm self }
    {
        sqrt_beside(self.x * self.x + self.y * self.y + self.z * self.z, r)
    }
}

// Three floats as a vector.
impl From<[f64; 3]> for Vec3 {
    ghost from_gives = { λ floats v. v ≡ spec.vector_at floats 0 };

    fn from(floats: [f64; 3]) -> Vec3 {
        Vec3 {
            x: floats[0],
            y: floats[1],
            z: floats[2],
        }
    }
}

// The vector of the three floats from k on.
pub fn vector_at(v: &[f64], k: usize) -> Vec3
    requires { k + 2 < length v.now }
    ensures { result ≡ spec.vector_at v.now k }
{
    Vec3 {
        x: v[k],
        y: v[k + 1],
        z: v[k + 2],
    }
}
