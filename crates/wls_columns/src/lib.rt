// The fix and the round of a caller's columns, and their answers in lent memory.
#![tactic(auto)]

pub mod bits;
pub mod columns;
pub mod fix;
pub mod round;
