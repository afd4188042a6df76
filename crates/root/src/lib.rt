// The square root of an f64, correctly rounded.
#![tactic(auto)]

pub mod sqrt;
pub mod tangent;
