// The two forms of a table, each made of the other: the five columns of samples, and a directory beside the columns of times and corrections.
// The columns have the names of the C header; constellation, svid and band are those of the signals, one place for each sample.
#![tactic(auto)]

pub mod directory_of;
pub mod signals_of;
