// A drive's distance, whichever of its epochs were refused: the totals of a mileage, and a mileage as ten words.
#![tactic(auto)]

pub mod mileage;
pub mod rated;
pub mod words;
