//! Rules 30 to 36 in code: what a library call does with the values of its positions, and what its result is.
#![tactic(auto)]

mod alone;
mod handed;
mod numbers;
mod positions;
mod result;
mod statics;

pub use positions::value_rules;
pub use statics::{StaticLabel, static_label};
