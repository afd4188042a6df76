// Many queries of one table in one call. The columns have the names of the C header.
#![tactic(auto)]

pub mod queries;
