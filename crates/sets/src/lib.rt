// Task sets: span (the moments for which tables are filled), conditions (the moments that each allows, as masks), tables (the begins and ends
// that a placement may have, by pairs of members), bounds (on begins, by the ends of others), firsts (the search from a moment), rows (the ends
// of a set from each begin) and placing (begins and ends of the members).
#![tactic(auto)]

mod bounds;
mod conditions;
mod firsts;
pub mod placing;
pub mod rows;
mod span;
mod tables;
