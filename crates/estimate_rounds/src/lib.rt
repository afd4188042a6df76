// What a fix and a displacement share: rules in checking order, and the rounds of the robust least squares.
#![tactic(auto)]

pub mod rounds;
pub mod rules;
