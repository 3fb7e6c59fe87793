//! The rules of the first set that the second has as they stand: what other rules conclude goes through
//! a sink that lets past only rows of kinds without register and label.
#![tactic(auto)]

mod kept_rules;
mod kept_sink;

pub use kept_rules::{KeptRules, of_the_app};
