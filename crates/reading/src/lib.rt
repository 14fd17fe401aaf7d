// Readings: pauses (those of end windows), rows (the ends of a node from a begin, by its form) and table (all rows, and how many ends they
// have).
#![tactic(auto)]

pub mod pauses;
mod rows;
pub mod table;
