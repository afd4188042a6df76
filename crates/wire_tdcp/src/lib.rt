// The displacement between two epochs of byte records.
#![tactic(auto)]

pub mod displacement;
