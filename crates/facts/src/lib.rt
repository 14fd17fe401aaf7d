// The list of known facts of a plan, by its history.
#![tactic(auto)]

pub mod list;

pub use list::{fill_facts, fill_upto, row_facts};
