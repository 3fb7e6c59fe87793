//! Rule 48 of the second set in code: which objects that the library has come back as results of calls.
#![tactic(auto)]

mod numbers;
mod offer;
mod result;
mod rules;
mod takers;
mod use_row;

pub use rules::CellHandedRules;
