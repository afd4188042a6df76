// A satellite's signal as one number.
#![tactic(auto)]

pub mod signal;
