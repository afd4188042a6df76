// The median of patterns, and the centre and scale of residuals.
#![tactic(auto)]

pub mod centre;
pub mod median;
