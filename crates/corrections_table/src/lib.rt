// The table of correction samples in five lent columns: its soundness, and samples added to it.
// In every call cs, vs, bs, ts and xs are the columns of constellations, svids, bands, times and corrections, and n counts the samples.
#![tactic(auto)]

pub mod add;
pub mod sample;
pub mod widen;
