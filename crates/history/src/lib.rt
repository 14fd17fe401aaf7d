// The history of a plan: tables of the actions of a well-formed job, and the values of the fluents at every moment.
#![tactic(auto)]

pub mod carry;
pub mod states;
pub mod tables;

pub use carry::keep_unfinished;
pub use states::Actions;
pub use tables::{durations, effects, finish_of, law_ends};
