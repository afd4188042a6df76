// The Cholesky factor of a matrix of nine rows, and the solution by it.
#![tactic(auto)]

pub mod factor;
