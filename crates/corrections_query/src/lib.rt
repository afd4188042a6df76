// The correction of a signal at a time, from a table of one block per satellite. The columns have the names of the C header.
#![tactic(auto)]

pub mod query;
mod search;
