// The static library for C and Rust: an entry point for each service and each call of its own. None of them keeps any state.
#![tactic(auto)]

pub mod between;
pub mod corrections;
pub mod directions;
pub mod drives;
pub mod estimates;
pub mod firmware;
pub mod forgetting;
pub mod forms;
pub mod line;
pub mod matrix;
pub mod mileages;
pub mod numbers;
pub mod profile;
pub mod queries;
pub mod rated;
pub mod round;
pub mod slots;
pub mod times;
pub mod track;
pub mod trips;
pub mod version;
