// One pass of a trajectory's least-squares fit, in lent work: the equations of the three axes, put together and solved, and its fit in the result.
// The work is rows of nine patterns, a row for each epoch (crate track_tridiagonal), then a scale for each anchor and for each link. No NaN is stored in a row: a pass ends
// where one would be, since it fails in any case.
#![tactic(auto)]

pub mod measured;
pub mod pass;
mod publish;
mod system;
