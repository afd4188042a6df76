// The rows of a round, their weights and their normal equations (robust.rs).
#![tactic(auto)]

pub mod columns;
pub mod equations;
pub mod row;
pub mod weight;
