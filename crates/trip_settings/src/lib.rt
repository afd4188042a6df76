// A trip whose displacements are worked out under settings that may change between two epochs.
#![tactic(auto)]

pub mod drive;
pub mod lent;
