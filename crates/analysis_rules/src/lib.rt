//! The rules of either analysis of an app as one set of rules in code, over the indexes that they ask.
#![tactic(auto)]

mod indexes;
mod rules;

pub use indexes::AppIndexes;
pub use rules::AnalysisRules;
