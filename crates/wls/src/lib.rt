// The fix from one epoch of pseudoranges: the rules on its arguments, the rounds, and the quality of the fit.
#![tactic(auto)]

mod chi;
pub mod fix;
mod valid;
