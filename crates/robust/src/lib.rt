// The robust weighted least-squares round that the fix and the displacement share (robust.rs).
#![tactic(auto)]

pub mod round;
pub mod sigma;
