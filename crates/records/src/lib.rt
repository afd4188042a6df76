// What is handed over, which of it can be used, the pairs of two epochs and those that the screen keeps, and the observations above the mask.
#![tactic(auto)]

pub mod arrays;
pub mod carriers;
pub mod columns;
pub mod mask;
pub mod pair;
pub mod record;
pub mod screen;
