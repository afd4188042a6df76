// What a fit says of itself: chi and the dilution of precision of its rows (wls.rs).
#![tactic(auto)]

pub mod figures;
mod inverse;
