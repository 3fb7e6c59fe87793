//! Rules 23 to 26 of the second set in code: what a call passes, and what an activation returns or throws.
#![tactic(auto)]

mod arguments;
mod contents;
mod exits;
mod numbers;
mod passing;
mod receivers;
mod rules;

pub use rules::CellCallRules;
