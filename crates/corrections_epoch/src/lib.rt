// Corrections from a base station: each call adds one base epoch to a directory of samples (`build` of differential.rs).
#![tactic(auto)]

pub mod add_epoch;
pub mod raw;
pub mod record;
pub mod sample;
