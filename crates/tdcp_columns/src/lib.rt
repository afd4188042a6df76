// Displacements of two epochs that a caller lends as columns, with settings as five floats and the rounds, and their answers in lent memory.
#![tactic(auto)]

pub mod displacement;
pub mod lent;
pub mod settings;
