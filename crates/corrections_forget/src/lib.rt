// Forgetting the samples before a time, in place: of each satellite's earlier samples only the last is retained.
// In every call block_constellation to block_samples are the directory's columns, with `blocks` entries in use;
// table_time and table_metres are the columns of times and corrections, with `table_count` samples in use.
#![tactic(auto)]

pub mod forget;
mod retain;
