// The receiver clocks, one for each constellation.
#![tactic(auto)]

pub mod clocks;
