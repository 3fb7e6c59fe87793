//! Rules 14 to 21 in code: what an effect on a site does to all that leads to its objects.
#![tactic(auto)]

mod effects;
mod methods;
mod numbers;
mod rules;
mod takers;

pub use rules::EffectRules;
