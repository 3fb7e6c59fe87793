//! A rule set of one rule, over which the solver, the checker and the workers are tested.
#![tactic(auto)]

mod climb;

pub use climb::{Climb, RULES};
