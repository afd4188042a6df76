// A base epoch and the states beside it as lent columns hold them, added to a directory.
#![tactic(auto)]

pub mod columns;
pub mod epoch;
pub mod lent;
