//! All rules of an app in code, with the rows from which they start and those that an app can have.
#![tactic(auto)]

mod app_rules;

pub use app_rules::AppRules;
