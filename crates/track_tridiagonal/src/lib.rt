// Three systems of symmetric tridiagonal equations, those of x, y and z, solved side by side in lent memory.
// A row is nine 64-bit patterns: the diagonal of x, y and z, then the upper diagonal, then the right side. What one equation needs stands together, so no number of
// rows makes columns fall into the same cache sets; and the divisions of one system wait for each other, so three rows at a time take little longer than one.
// No NaN is ever stored: where one would be, the systems cannot be solved, and the work ends.
#![tactic(auto)]

pub mod fill;
pub mod solve;
