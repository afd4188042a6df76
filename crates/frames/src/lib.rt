// Directions on the earth.
#![tactic(auto)]

pub mod earth;
pub mod frames;
pub mod lent;
