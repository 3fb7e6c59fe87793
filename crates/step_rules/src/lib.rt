//! Rules 1 to 13 in code: what follows with a row by a step within a method.
#![tactic(auto)]

mod contents;
mod labels;
mod numbers;
mod objects;
mod reached;
mod rules;
mod statics;

pub use rules::StepRules;
