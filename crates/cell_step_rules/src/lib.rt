//! Rules 3 to 14 of the second set in code: what follows with a row by a step within a method, and from
//! the cells of objects.
#![tactic(auto)]

mod cells;
mod contents;
mod labels;
mod numbers;
mod objects;
mod reached;
mod rules;
mod statics;

pub use rules::CellStepRules;
