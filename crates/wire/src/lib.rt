// Carrier records as the firmware holds them, 59 bytes each: reading and writing.
#![tactic(auto)]

pub mod columns;
pub mod number;
pub mod record;
