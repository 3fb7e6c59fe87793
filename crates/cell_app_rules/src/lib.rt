//! All rules of the second set of an app in code, with the rows from which they start and those that an app can have by
//! them.
#![tactic(auto)]

mod cell_app_rules;
mod first_rules;

pub use cell_app_rules::CellAppRules;
