// The displacement between two carrier epochs: the rules on its arguments, the pairs, and the rounds over them.
#![tactic(auto)]

pub mod displacement;
mod moved;
mod rating;
mod rounds;
pub mod valid;
