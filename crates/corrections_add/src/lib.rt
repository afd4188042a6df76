// New samples merged into a directory and the columns beside it, moving each old sample at most once.
// In every call block_constellation to block_samples are the directory's columns, with `blocks` entries in use, each lent alone, since some are written;
// table_time and table_metres are the columns of times and corrections, with `table_count` samples in use;
// new has the columns of the new samples, sorted, and their count.
#![tactic(auto)]

pub mod add;
mod entries;
mod readings;
mod samples;
