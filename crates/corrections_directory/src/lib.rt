// The table of correction samples as one block per satellite: a directory beside the columns of times and corrections.
// The columns have the names of the C header. Those of the directory are block_constellation, block_svid, block_band, block_first and block_samples: the first
// `blocks` entries count. table_time and table_metres hold the times and corrections: the first table_count samples count.
#![tactic(auto)]

pub mod element;
pub mod entry;
pub mod patterns;
pub mod sound;
