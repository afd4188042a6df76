// Odometer beside carrier distance: the totals of a trip, and a trip as six words.
#![tactic(auto)]

pub mod measure;
pub mod trip;
pub mod words;
